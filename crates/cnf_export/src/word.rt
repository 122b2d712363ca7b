//! The words of a model's text.
ghost use Rattle.std.specs.Prelude.{◌≡◌, ◌≤◌, ◌<◌, ◌+◌, ◌^◌, length, Some, IfErr, IfOk, IfSome};
ghost use Rattle.basics.specs.Laws.Reading.{Gives};
ghost use Rattle.cnf_export.specs.ModelText.{is_digit, next_part, number_said, take_no, words_read};
ghost use Rattle.cnf_export.specs.ModelText.{take_yes, with_digit};

/// Reads what stands between two blanks. `words` says how many words were read, where no 0 has
/// ended the model.
pub(crate) fn read_part(
    limit: u32,
    words: Option<usize>,
    part: &[u8],
    flags: &mut [bool],
) -> Result<Option<usize>, usize>
    requires places { limit ≤ length flags.old }
    requires fits { words_read words + length part.now < 2 ^ 64 }
    ensures read { Gives Some (λ after. (flags.new, after)) result
        (next_part limit (flags.old, words) part.now) }
    ensures word { IfErr result (λ k. k ≤ words_read words) }
    ensures few { IfOk result (λ after. words_read after ≤ words_read words + length part.now) }
    ensures places { length flags.new ≡ length flags.old }
{
    let Some(k) = words else {
        return Ok(None);
    };
    if part.len() == 0 {
        return Ok(Some(k));
    }
    if part[0] == b'-' {
        take_no(k, number_of(limit, &part[1..]), flags)
    } else {
        take_yes(k, number_of(limit, part), flags)
    }
}

fn take_no(k: usize, number: Option<u32>, flags: &[bool]) -> Result<Option<usize>, usize>
    requires { k + 1 < 2 ^ 64 }
    ensures read { Gives Some (λ after. (flags.now, after)) result (take_no k flags.now number) }
    ensures word { IfErr result (λ n. n ≤ k) }
    ensures few { IfOk result (λ after. words_read after ≤ k + 1) }
{
    let _ = flags;
    match number {
        Some(n) => { if n == 0 { Err(k) } else { Ok(Some(k + 1)) } }
        None => Err(k),
    }
}

fn take_yes(k: usize, number: Option<u32>, flags: &mut [bool]) -> Result<Option<usize>, usize>
    requires fits { k + 1 < 2 ^ 64 }
    requires places { IfSome number (λ n. n ≤ length flags.old) }
    ensures read { Gives Some (λ after. (flags.new, after)) result (take_yes k flags.old number) }
    ensures word { IfErr result (λ n. n ≤ k) }
    ensures few { IfOk result (λ after. words_read after ≤ k + 1) }
    ensures places { length flags.new ≡ length flags.old }
{
    match number {
        Some(n) => {
            if n == 0 {
                Ok(None)
            } else {
                flags[n as usize - 1] = true;
                Ok(Some(k + 1))
            }
        }
        None => Err(k),
    }
}

// The number that digits say, where it is not above a limit.
fn number_of(limit: u32, digits: &[u8]) -> Option<u32>
    ensures number { result ≡ number_said limit digits.now }
    ensures few { IfSome result (λ n. n ≤ limit) }
{
    if digits.len() == 0 || (digits[0] == b'0' && digits.len() > 1) {
        return None;
    }
    let mut n = 0;
    'digits: for digit in digits {
        match with_digit(limit, n, *digit) {
            Some(more) => n = more,
            None => return None,
        }
    }
    Some(n)
}

// A number with one more digit, where it is then not above a limit.
fn with_digit(limit: u32, n: u32, b: u8) -> Option<u32>
    ensures number { result ≡ with_digit limit n b }
    ensures few { IfSome result (λ m. m ≤ limit) }
{
    if !is_digit(b) {
        return None;
    }
    let more = 10 * n as u64 + (b - b'0') as u64;
    if more <= limit as u64 {
        Some(more as u32)
    } else {
        None
    }
}

fn is_digit(b: u8) -> bool
    ensures { result ≡ is_digit b }
{
    b'0' <= b && b <= b'9'
}
