// Whether bytes are well-formed UTF-8.
#![tactic(auto)]

ghost use Rattle.std.specs.Prelude.{◌≡◌, true, false, ◌↔◌, ℕ, ◌+◌, ◌≤◌, ◌<◌, length, get_or, drop, MatchOption};
ghost use Rattle.std.proofs.Math.Option.{some};
ghost use Rattle.bytes_be.specs.Part.{part};
ghost use Rattle.utf8.specs.Text.{table, due_behind, rest, well_formed};
ghost use Rattle.utf8.specs.Held.{ranges, ranges_of};

// What must follow for the bytes so far to be the start of a well-formed text: so many bytes of the sequence that was begun, the next
// of them in this range.
#[derive(Clone, Copy)]
struct Due {
    count: u8,
    from: u8,
    to: u8,
}

#[tactic(auto, unfolding(crate::specs::Held::ranges_of))]
fn due_bytes(count: u8, from: u8, to: u8) -> Option<Due>
    ensures { ranges_of result ≡ some (ranges count from to) }
{
    Some(Due { count, from, to })
}

// What is due behind a first byte, row by row of the table; behind a byte that no row has, nothing makes the text well-formed.
#[tactic(auto, unfolding(crate::specs::Held::ranges_of, crate::specs::Held::ranges, crate::specs::Text::due_behind, crate::specs::Text::table))]
fn due_behind(byte: u8) -> Option<Due>
    ensures { ranges_of result ≡ due_behind table byte }
{
    match byte {
        0x00..=0x7F => due_bytes(0, 0x80, 0xBF),
        0xC2..=0xDF => due_bytes(1, 0x80, 0xBF),
        0xE0 => due_bytes(2, 0xA0, 0xBF),
        0xE1..=0xEC => due_bytes(2, 0x80, 0xBF),
        0xED => due_bytes(2, 0x80, 0x9F),
        0xEE..=0xEF => due_bytes(2, 0x80, 0xBF),
        0xF0 => due_bytes(3, 0x90, 0xBF),
        0xF1..=0xF3 => due_bytes(3, 0x80, 0xBF),
        0xF4 => due_bytes(3, 0x80, 0x8F),
        _ => None,
    }
}

// Whether the bytes that are due stand at place `at`.
fn follow(s: &[u8], at: usize, due: Due) -> bool
    requires { at ≤ length s.now }
    ensures { result ≡ rest (ranges due.count due.from due.to) (part s.now at due.count) }
{
    let count = usize::from(due.count);
    if s.len() - at < count {
        return false;
    }
    let behind = at + count;
    let mut from = due.from;
    let mut to = due.to;
    for byte in &s[at..behind] {
        let inside = (from <= *byte) & (*byte <= to);
        if !inside {
            return false;
        }
        from = 0x80;
        to = 0xBF;
    }
    true
}

// The place behind the sequence at place i. Where none of the table is there, the text is not well-formed from there on; else it is so
// exactly if it is behind the sequence.
fn behind_sequence(s: &[u8], i: usize) -> Option<usize>
    requires { i < length s.now }
    ensures { MatchOption result (well_formed (drop i s.now) ≡ false) (λ next. (i < next) × (next ≤ length s.now) × (well_formed (drop i s.now) ≡ well_formed (drop next s.now))) }
{
    let Some(due) = due_behind(s[i]) else {
        return None;
    };
    if follow(s, i + 1, due) {
        return Some(i + 1 + usize::from(due.count));
    }
    None
}

// Whether the eight bytes at place `at` are below 128: none of them has its highest bit.
fn plain_at(s: &[u8], at: usize) -> bool
    requires { at + 8 ≤ length s.now }
    ensures { (result ≡ true) ↔ ((i : ℕ) → i < 8 → get_or s.now (at + i) 0 < 128) }
{
    bytes_be::word_at(s, at) & 0x8080_8080_8080_8080 == 0
}

// A place behind bytes below 128, which are passed over thirty-two at a time, as long as there are so many. Steps of chunks would have to
// count their places beside them, which is no plainer.
fn behind_blocks(s: &[u8], from: usize) -> usize
    requires { from ≤ length s.now }
    ensures { (from ≤ result) × (result ≤ length s.now) × ((i : ℕ) → from ≤ i → i < result → get_or s.now i 0 < 128) }
{
    if s.len() < 32 {
        return from;
    }
    let last = s.len() - 32;
    let mut i = from;
    while i <= last {
        let plain = plain_at(s, i) & plain_at(s, i + 8) & plain_at(s, i + 16) & plain_at(s, i + 24);
        if !plain {
            return i;
        }
        i += 32;
    }
    i
}

// The same, eight at a time. One function for both would go over the words of a step in a loop within, which is no plainer.
fn behind_eights(s: &[u8], from: usize) -> usize
    requires { from ≤ length s.now }
    ensures { (from ≤ result) × (result ≤ length s.now) × ((i : ℕ) → from ≤ i → i < result → get_or s.now i 0 < 128) }
{
    if s.len() < 8 {
        return from;
    }
    let last = s.len() - 8;
    let mut i = from;
    while i <= last {
        if !plain_at(s, i) {
            return i;
        }
        i += 8;
    }
    i
}

// The place behind all bytes below 128 that stand there, which are passed over one by one. With a `for` over the places text of two- or
// three-byte characters took half as long again, and with the library's `position` up to twice as long.
fn behind_bytes(s: &[u8], from: usize) -> usize
    requires { from ≤ length s.now }
    ensures { ((from ≤ result) × (result ≤ length s.now) × ((i : ℕ) → from ≤ i → i < result → get_or s.now i 0 < 128)) × (result < length s.now → 128 ≤ get_or s.now result 0) }
{
    let mut i = from;
    while i < s.len() {
        if 128 <= s[i] {
            return i;
        }
        i += 1;
    }
    i
}

// The same place, many at a time.
fn behind_run(s: &[u8], from: usize) -> usize
    requires { from ≤ length s.now }
    ensures { ((from ≤ result) × (result ≤ length s.now) × ((i : ℕ) → from ≤ i → i < result → get_or s.now i 0 < 128)) × (result < length s.now → 128 ≤ get_or s.now result 0) }
{
    let blocks = behind_blocks(s, from);
    let eights = behind_eights(s, blocks);
    behind_bytes(s, eights)
}

// The same place, where it is likely to be near: many at a time are tried only behind eight.
fn behind_short_run(s: &[u8], from: usize) -> usize
    requires { from ≤ length s.now }
    ensures { ((from ≤ result) × (result ≤ length s.now) × ((i : ℕ) → from ≤ i → i < result → get_or s.now i 0 < 128)) × (result < length s.now → 128 ≤ get_or s.now result 0) }
{
    if s.len() - from < 8 {
        return behind_bytes(s, from);
    }
    if plain_at(s, from) {
        return behind_run(s, from);
    }
    behind_bytes(s, from)
}

// Whether the bytes are text, in one pass that ends at the first sequence which is none of the table. The steps are as long as the
// sequences and the runs between them, so there is nothing that a `for` could go over.
pub fn well_formed(s: &[u8]) -> bool
    ensures { result ≡ well_formed s.now }
{
    let mut i = behind_run(s, 0);
    while i < s.len() {
        let Some(next) = behind_sequence(s, i) else {
            return false;
        };
        i = behind_short_run(s, next);
    }
    true
}
