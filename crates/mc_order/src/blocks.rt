ghost use Rattle.std.specs.Bool.{OnTrue};
ghost use Rattle.std.specs.Prelude.{◌≡◌, ◌≢◌, ◌≤◌, ◌<◌, length, slice_index_or, take};

/// How many bytes are looked at together.
const BLOCK: usize = 32;

/// How many bytes two texts have in common in front: up to the first place where they differ, or to
/// the end of the shorter one.
pub fn shared_bytes(a: &[u8], b: &[u8]) -> usize
    ensures within_first { result ≤ length a.now }
    ensures within_second { result ≤ length b.now }
    ensures same { take result a.now ≡ take result b.now }
    ensures differs { result < length a.now → result < length b.now →
        slice_index_or a.now result 0 ≢ slice_index_or b.now result 0 }
{
    let shorter = a.len().min(b.len());
    for i in shared_blocks(a, b)..shorter {
        if a[i] != b[i] {
            return i;
        }
    }
    shorter
}

/// How many bytes stand in the whole blocks that two texts have in common in front.
fn shared_blocks(a: &[u8], b: &[u8]) -> usize
    ensures within_first { result ≤ length a.now }
    ensures within_second { result ≤ length b.now }
    ensures same { take result a.now ≡ take result b.now }
{
    let mut at = 0;
    while a.len() - at >= BLOCK && b.len() - at >= BLOCK && same_block(&a[at..], &b[at..]) {
        at += BLOCK;
    }
    at
}

/// Whether two texts have one first block.
fn same_block(a: &[u8], b: &[u8]) -> bool
    requires first { BLOCK ≤ length a.now }
    requires second { BLOCK ≤ length b.now }
    ensures { OnTrue result (take BLOCK a.now ≡ take BLOCK b.now) }
{
    a[..BLOCK] == b[..BLOCK]
}
