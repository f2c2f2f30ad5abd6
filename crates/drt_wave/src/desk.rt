//! What the workers of a table take their seats from.
ghost use Rattle.std.specs.Prelude.{◌≡◌, [], IfOk, IfErr, IfSome};
ghost use Rattle.drt_lock.specs.Rule.{all_parts};
ghost use Rattle.drt_wave.specs.Cells.{net_of};
ghost use Rattle.drt_wave.specs.Shifts.{IsAtWork, IsShift};
ghost use Rattle.drt_wave.specs.Seats.{draws_of, KnowsTo, IsOfTable, HasRoomForLanes};

use crate::crew::{Crew, Sharing};
use crate::drawing::turn_count;
use crate::lane::LaneSeat;
use crate::seat::WaveSeat;
use crate::table::WaveTable;
use crate::waves::work_wave;
use drt_lock::Guarded;
use std::marker::Model;

/// The parts of a seat that has every part of the table.
const PARTS: u64 = 1024;

/// What a worker takes for a wave: the wave, and a seat of one part to work it with.
#[derive(Drop)]
pub(crate) struct Shift {
    pub(crate) wave: u32,
    pub(crate) seat: WaveSeat,
}

/// A table that is worked wave by wave, with the seat that has what no worker holds. Contracts see it as the table.
///
/// The waves before the open one are worked. A wave is known as final once all parts are back.
#[derive(Drop)]
pub(crate) struct Desk<'a> {
    table: &'a WaveTable,
    owner: WaveSeat,
    // How many parts the owner's seat has.
    parts: u64,
    // The wave that is open, or how many there are where all are worked.
    wave: u32,
    waves: u32,
    sharing: Sharing,
}

impl<'a> Model for Desk<'a> {
    ghost use Rattle.drt_wave.specs.Shifts.{IsWaveOwner};
    ghost use Rattle.drt_wave.specs.declared.table.WaveTable.{WaveTable};

    ghost Value = { WaveTable };

    ghost view = { λ d. d.table.now };

    ghost invariant = { λ d. IsWaveOwner d.table.now d.wave d.parts d.waves d.owner };
}

impl<'a> Guarded for Desk<'a> {
    type Fixed = WaveTable;

    ghost fixed = { λ d. d };

    // Nothing is logged.
    ghost entries = { λ d. 0 };
}

impl<'a> Desk<'a> {
    /// A table of which no wave is worked.
    pub(crate) fn open(table: &'a WaveTable, owner: WaveSeat, crew: Crew) -> Desk<'a>
        requires owner { IsAtWork table.now 0 all_parts owner }
        requires draws { draws_of owner ≡ [] }
        ensures { result ≡ table.now }
    {
        Desk {
            table,
            owner,
            parts: PARTS,
            wave: 0,
            waves: table.plan.wave_count(),
            sharing: Sharing::new(crew),
        }
    }

    /// How many turns the caller has before other workers begin, as long as no wave is worked: none where all begin at once, one where they begin
    /// with the first wave, in which the caller takes a seat for it, and else as many as it takes the caller to work that wave, and after it those
    /// up to the first one that is shared, for which it takes a seat then.
    pub(crate) fn turns_alone(&mut self) -> u64
        ensures { self.new ≡ self.old }
    {
        if self.sharing.begins_at_once() {
            return 0;
        }
        if self.is_shared() {
            return 1;
        }
        turn_count(self.table, 0) + 2
    }

    /// The wave that is open, or how many there are where all are worked.
    pub(crate) fn open_wave(&self) -> u32 {
        self.wave
    }

    /// Whether all waves are worked.
    pub(crate) fn is_done(&self) -> bool {
        self.wave >= self.waves
    }

    /// A seat for the open wave, where that is `next` or a later one and there is a part to spare, and else the room for it back.
    pub(crate) fn take(&mut self, next: u64, room: Vec<LaneSeat>) -> Result<Shift, Vec<LaneSeat>>
        requires room { HasRoomForLanes self.old room }
        ensures kept { self.new ≡ self.old }
        ensures shift { IfOk result (λ shift. IsShift self.old shift.wave shift.seat) }
        ensures room { IfErr result (λ back. HasRoomForLanes self.old back) }
    {
        if self.wave >= self.waves || (self.wave as u64) < next || self.parts <= 1 {
            return Err(room);
        }
        let seat = self.table.split_into(&mut self.owner, room);
        self.parts -= 1;
        Ok(Shift {
            wave: self.wave,
            seat,
        })
    }

    /// Takes a worker's seat in, and gives the room of it back. Where all parts are back already, which can't be, the seat is dropped.
    pub(crate) fn give_back(&mut self, shift: Shift) -> Option<Vec<LaneSeat>>
        requires { IsShift self.old shift.wave shift.seat }
        ensures kept { self.new ≡ self.old }
        ensures room { IfSome result (λ room. HasRoomForLanes self.old room) }
    {
        if self.parts >= PARTS {
            return None;
        }
        let room = self.table.join_back(&mut self.owner, shift.seat);
        self.parts += 1;
        Some(room)
    }

    /// Where all parts are back: works what is left of the open wave, which is one claim past its end where workers worked it, and then knows
    /// the next wave as final. It goes on so over each later wave that is not shared.
    pub(crate) fn work_on(&mut self)
        ensures { self.new ≡ self.old }
    {
        self.work_open();
        self.work_unshared();
    }

    /// The seat, once every wave is worked. Where all parts are back it works those that are left, and where one is out, None.
    pub(crate) fn into_seat(self) -> Option<WaveSeat>
        ensures seat { IfSome result (λ seat. IsOfTable self.entry seat) }
        ensures known { IfSome result (λ seat. KnowsTo (net_of self.entry.plan).waves seat) }
    {
        let mut desk = self;
        'waves: for _wave in desk.wave..desk.waves {
            desk.work_open();
        }
        if desk.wave < desk.waves {
            return None;
        }
        Some(desk.owner)
    }

    // Works the waves from the open one on that are not shared, where all parts are back.
    fn work_unshared(&mut self)
        ensures { self.new ≡ self.old }
    {
        'waves: for _wave in self.wave..self.waves {
            if self.parts < PARTS || self.wave >= self.waves || self.is_shared() {
                return;
            }
            self.work_open();
        }
    }

    // Where all parts are back and there is an open wave: works what is left of it, and opens the next one.
    fn work_open(&mut self)
        ensures { self.new ≡ self.old }
    {
        if self.parts < PARTS || self.wave >= self.waves {
            return;
        }
        work_wave(self.table, &mut self.owner, self.wave);
        self.wave += 1;
    }

    // Whether the open wave is shared, or all are worked.
    fn is_shared(&mut self) -> bool
        ensures { self.new ≡ self.old }
    {
        if self.wave >= self.waves {
            return true;
        }
        self.sharing.shares(self.table, &mut self.owner, self.wave)
    }
}
