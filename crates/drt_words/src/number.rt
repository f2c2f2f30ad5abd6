//! A number of the command line.
ghost use Rattle.std.specs.Prelude.{◌≡◌, ◌<◌, ◌≤◌, ◌^◌, IfSome};
ghost use Rattle.drt_words.specs.Number.{number_in, whole_in};

/// The number of a text, where it lies in 1 to `most`.
pub fn number_of(text: &str, most: u32) -> Option<u32>
    ensures value { result ≡ number_in most text.now }
    ensures range { IfSome result (λ n. (1 ≤ n) × (n ≤ most)) }
{
    match text.parse::<u32>() {
        Ok(number) => {
            if 1 <= number && number <= most {
                Some(number)
            } else {
                None
            }
        }
        Err(_) => None,
    }
}

/// The number of a text, where it lies in 0 to 18,446,744,073,709,551,615.
pub fn whole_of(text: &str) -> Option<u64>
    ensures { result ≡ whole_in text.now }
{
    match text.parse::<u64>() {
        Ok(number) => Some(number),
        Err(_) => None,
    }
}
