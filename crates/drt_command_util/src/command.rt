//! `util`: the ratio of each task, and the utilisation.
ghost use Rattle.std.specs.Prelude.{◌≡◌, ◌≤◌, ◌++◌, ◌⊎◌, IfErr, IfOk, OnOk, length, map};
ghost use Rattle.drt_file.specs.trusted.Canonical.{written, written_line};
ghost use Rattle.drt_model.specs.Digraph.{digraph_of};
ghost use Rattle.drt_ratio.specs.SetRatios.{AreRatioProofs, AreSmall};
ghost use Rattle.drt_rates.specs.RatioClaims.{fractions};
ghost use Rattle.drt_command.specs.Rules.{IsUnmadeCause};
ghost use Rattle.drt_command_util.specs.Util.{IsTooFineSet, IsTooFineFile, IsUtilisationText, Utilises, fraction_line, fraction_lines, util_lines, util_rules};
ghost use Rattle.drt_command_files.specs.TaskFiles.{IsAccepted};

use drt_command::{Command, Input, Promised, Report, Unmade};
use drt_command_files::{file_input, read_set};
use drt_file::laws::texts_read_as_one_set;
use drt_file::push_line;
use drt_graph::Graphs;
use drt_model::{Memory, Row, Task, TaskSet};
use drt_num::Ratio;
use drt_outcome::fault::{Fault, SCALE_TOO_FINE};
use drt_outcome::outcome::YES;
use drt_rates::RatioClaim;
use drt_ratio::{greatest, proofs_give_ratios, utilisation};
use itoa::Buffer;
use std::alloc::Global;

/// The command `util`.
#[derive(Debug, Drop)]
pub struct Util;

impl Promised for Util {
    ghost rules = { λ _. util_rules };

    fn laws(&self) {
        texts_read_as_one_set();
    }

    fn input(&self) -> Input {
        file_input()
    }
}

impl Command for Util {
    fn make(&self, alloc: Global, bytes: &[u8]) -> Result<Report, Unmade> {
        let (set, graphs) = read_set(alloc, bytes)?;
        print(alloc, bytes, &set, &graphs)
    }
}

// The ratios and the utilisation of an accepted set.
fn print(alloc: Global, bytes: &[u8], set: &TaskSet, graphs: &Graphs) -> Result<Report, Unmade>
    requires accepted { IsAccepted bytes.now set.now }
    requires graphs { graphs.now ≡ map digraph_of set.now.tasks }
    ensures utilises { IfOk result (Utilises bytes.now) }
    ensures unmade { IfErr result (IsUnmadeCause IsTooFineFile bytes.now) }
{
    let text = make_text(alloc, set, graphs)?;
    Ok(Report::new(YES, text))
}

/// A line `NAME NUM/DEN` for the ratio of each task, in order, and a line `total NUM/DEN` for the utilisation of the set,
/// all in lowest terms. A set whose scale exceeds 2^60 is refused with the fault of that limit.
pub fn make_text(alloc: Global, set: &TaskSet, graphs: &Graphs) -> Result<Row<u8>, Unmade>
    requires { graphs.now ≡ map digraph_of set.now.tasks }
    ensures text { IfOk result (λ text. IsUtilisationText set.now text) }
    ensures unmade { IfErr result (λ e. (e ≡ Unmade.Memory) ⊎ ((e ≡ Unmade.Refused (Fault.Limit 21)) × IsTooFineSet set.now)) }
{
    proofs_give_ratios();
    let Ok(proofs) = find_ratios(alloc, graphs) else {
        return Err(Unmade::Memory);
    };
    let Some(total) = utilisation(proofs.as_slice()) else {
        return Err(Unmade::Refused(Fault::Limit {
            code: SCALE_TOO_FINE,
        }));
    };
    match print_lines(alloc, set.tasks(), proofs.as_slice(), &total) {
        Ok(text) => Ok(text),
        Err(_) => Err(Unmade::Memory),
    }
}

// The ratio of each graph, with its evidence.
fn find_ratios(alloc: Global, graphs: &Graphs) -> Result<Vec<RatioClaim>, Memory>
    ensures are { IfOk result (λ proofs. AreRatioProofs graphs.now proofs.items) }
    ensures small { IfOk result (λ proofs. AreSmall proofs.items) }
    ensures few { IfOk result (λ proofs. length proofs.items ≤ 32) }
    ensures count { IfOk result (λ proofs. length proofs.items ≡ length graphs.now) }
{
    let mut proofs = Vec::new(alloc);
    let count = graphs.count();
    'graphs: for i in 0..count {
        proofs.push(greatest(alloc, graphs.graph(i))?)?;
    }
    Ok(proofs)
}

// The lines of the tasks with their ratios, and the one of the total.
fn print_lines(
    alloc: Global,
    tasks: &[Task],
    proofs: &[RatioClaim],
    total: &Ratio,
) -> Result<Row<u8>, Memory>
    requires { length tasks.now ≡ length proofs.now }
    ensures { IfOk result (λ text. text ≡ written (util_lines tasks.now (fractions proofs.now) (record { num = total.now.num; den = total.now.den }))) }
{
    let mut text = Vec::new(alloc);
    push_ratios(alloc, &mut text, tasks, proofs)?;
    push_fraction(alloc, &mut text, b"total", total.num(), total.den())?;
    Ok(Row::from_vec(text))
}

// Adds the lines of the tasks with their ratios.
fn push_ratios(
    alloc: Global,
    text: &mut Vec<u8>,
    tasks: &[Task],
    proofs: &[RatioClaim],
) -> Result<(), Memory>
    requires { length tasks.now ≡ length proofs.now }
    ensures { OnOk result (text.new.items ≡ text.old.items ++ written (fraction_lines tasks.now (fractions proofs.now))) }
{
    'tasks: for i in 0..tasks.len() {
        let proof = &proofs[i];
        push_fraction(
            alloc,
            text,
            tasks[i].name.as_slice(),
            proof.num as u128,
            proof.den as u128,
        )?;
    }
    Ok(())
}

// Adds the line of a name and a fraction.
fn push_fraction(
    alloc: Global,
    text: &mut Vec<u8>,
    name: &[u8],
    num: u128,
    den: u128,
) -> Result<(), Memory>
    ensures { OnOk result (text.new.items ≡ text.old.items ++ written_line (fraction_line name.now (record { num = num; den = den }))) }
{
    let mut num_digits = Buffer::new();
    let mut den_digits = Buffer::new();
    let mut fraction = Vec::from_slice(alloc, num_digits.format(num).as_bytes())?;
    fraction.extend_from_slice(b"/")?;
    fraction.extend_from_slice(den_digits.format(den).as_bytes())?;
    push_line(text, &[name, fraction.as_slice()])
}
