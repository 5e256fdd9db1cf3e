ghost use Rattle.mc_charset.specs.CharStart.{is_not_behind};
ghost use Rattle.std.specs.Prelude.{
  ◌≡◌,
  ◌<◌,
  ◌≤◌,
  ◌+◌,
  ◌^◌,
  filter,
  length,
  slice_index,
  take,
  true,
};

/// How many bytes are looked at together.
const BLOCK: usize = 64;

/// How many bytes are not 80 to BF: in UTF-8 each character has one of these.
pub(crate) fn count_firsts(text: &[u8]) -> u32
    requires { length text.now < 2 ^ 32 }
    ensures { result ≡ length (filter is_not_behind text.now) }
{
    let mut count = 0;
    for byte in text {
        count += u32::from(is_not_behind(*byte));
    }
    count
}

/// Whether the byte is not one of 80 to BF.
#[inline(always)]
fn is_not_behind(byte: u8) -> bool
    ensures { result ≡ is_not_behind byte }
{
    byte < 0x80 || byte >= 0xC0
}

/// The place of the byte that begins character `k` in UTF-8: behind `k` bytes that are not 80 to BF
/// the next such one, or the text's length where there are no more than `k`.
pub(crate) fn start_of_first(text: &[u8], k: u32) -> usize
    requires { length text.now < 2 ^ 32 }
    ensures within { result ≤ length text.now }
    ensures counted { result < length text.now →
        length (filter is_not_behind (take result text.now)) ≡ k }
    ensures first { result < length text.now →
        is_not_behind (slice_index text.now result) ≡ true }
    ensures all { length text.now ≤ result → length (filter is_not_behind text.now) ≤ k }
{
    let passed = pass_blocks(text, k);
    let mut left = passed.left;
    for at in passed.start..text.len() {
        if is_not_behind(text[at]) {
            if left == 0 {
                return at;
            }
            left -= 1;
        }
    }
    text.len()
}

/// A place, and how many bytes that begin characters are still to be passed.
#[derive(Clone, Copy)]
struct Passed {
    start: usize,
    left: u32,
}

/// Passes whole blocks with no more than `k` bytes that begin characters.
fn pass_blocks(text: &[u8], k: u32) -> Passed
    requires { length text.now < 2 ^ 32 }
    ensures within { result.start ≤ length text.now }
    ensures counted { length (filter is_not_behind (take result.start text.now)) + result.left ≡ k }
{
    let mut start = 0;
    let mut left = k;
    while text.len() - start >= BLOCK {
        let firsts = count_firsts(&text[start..start + BLOCK]);
        if firsts > left {
            return Passed { start, left };
        }
        left -= firsts;
        start += BLOCK;
    }
    Passed { start, left }
}
