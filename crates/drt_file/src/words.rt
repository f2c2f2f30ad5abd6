//! What single fields say.
ghost use Rattle.std.specs.Prelude.{◌≡◌, min};
ghost use Rattle.std.specs.List.{list_all};
ghost use Rattle.drt_file.specs.trusted.Words.{is_digit, is_name_byte, is_name, is_number, value};

#[tactic(auto, unfolding(crate::specs::trusted::Words::is_digit))]
fn digit(b: u8) -> bool
    ensures { result ≡ is_digit b }
{
    48 <= b && b <= 57
}

#[tactic(auto, unfolding(crate::specs::trusted::Words::is_name_byte))]
fn name_byte(b: u8) -> bool
    ensures { result ≡ is_name_byte b }
{
    (65 <= b && b <= 90) || (97 <= b && b <= 122) || (48 <= b && b <= 57) || b == 95 || b == 45
}

fn all_digits(word: &[u8]) -> bool
    ensures { result ≡ list_all is_digit word.now }
{
    for b in word {
        if !digit(*b) {
            return false;
        }
    }
    true
}

fn all_name_bytes(word: &[u8]) -> bool
    ensures { result ≡ list_all is_name_byte word.now }
{
    for b in word {
        if !name_byte(*b) {
            return false;
        }
    }
    true
}

/// Whether the field is a name.
#[tactic(auto, unfolding(crate::specs::trusted::Words::is_name))]
pub fn a_name(word: &[u8]) -> bool
    ensures { result ≡ is_name word.now }
{
    1 <= word.len() && word.len() <= 32 && all_name_bytes(word)
}

/// Whether the field is one or more decimal digits.
#[tactic(auto, unfolding(crate::specs::trusted::Words::is_number))]
pub fn a_number(word: &[u8]) -> bool
    ensures { result ≡ is_number word.now }
{
    1 <= word.len() && all_digits(word)
}

/// The number that digits mean, or 1,000,001 where it is greater.
pub fn value_of(word: &[u8]) -> u32
    ensures { result ≡ min (value word.now) 1000001 }
{
    let mut n = 0;
    for b in word {
        n = n * 10 + u32::from(b.saturating_sub(48));
        if n > 1_000_001 {
            n = 1_000_001;
        }
    }
    n
}
