// One endpoint: its record, what a good one is, how it changes, and its block of 64 bytes.
#![tactic(auto)]

ghost use Rattle.std.specs.Prelude.{◌≡◌, ◌+◌, ◌*◌, ◌≤◌, ◌<◌, cond, ◌&&◌, length, leb};
ghost use Rattle.bytes_be.specs.Part.{part, put_at};
ghost use Rattle.double.specs.Limit.{in_limits};
ghost use Rattle.endpoint.specs.Record.{entry_bytes, entry_at, in_ranges, count_fits, wait_fits, is_none, awaitable, fits, every, all_fit, unconfirmed_with, unconfirmed_without, good as Record·good, given_of, making_number, fresh_of, fresh_client, fresh_server, no_endpoint, made_of, closed as Record·closed, at_phase, asked as Record·asked, entry_of, without_entry, without as Record·without, confirmed as Record·confirmed, limited as Record·limited, oldest as Record·oldest};
ghost use Rattle.endpoint.specs.Block.{head_bytes, bytes_of, record_in, spare_is_zero, load_of};

use bytes_be::Number;
use numbered::Numbered;

// A confirmation that is awaited.
#[derive(Clone, Copy, Debug, PartialEq, Eq)]
pub struct Entry {
    // The number of its type, 3 or 4; 0 where none is awaited. It stays a number, as a block has any byte here, and `good` is the test.
    pub message: u8,
    pub type_data: u16,
}

// Role, flow and phase stay numbers: a record holds whatever bytes a block has there, `specs/Round: LoadedGood` speaks of the bad ones too,
// and `good` is the test of them.
#[derive(Clone, Copy, Debug, PartialEq, Eq)]
pub struct Endpoint {
    // 1 client, 2 server.
    pub role: u8,
    // 1 producer, 2 consumer.
    pub flow: u8,
    // 0 fresh, 1 opening, 2 idle, 3 offer, 4 batch, 5 closed.
    pub phase: u8,
    // How many confirmations are awaited.
    pub w: u8,
    // The count that is offered, or that is left of the batch.
    pub n: u16,
    pub limit: u32,
    // The confirmations awaited, oldest first: sixteen times type and type-data. They stay the bytes of the block, which are loaded and stored as
    // they are; `specs/Block: bytes_of` has them so.
    pub entries: [u8; 48],
    // How many of them belong to DATA.
    pub unconfirmed: u8,
}

// The flow or the limit that is given to a making is bad.
#[derive(Clone, Copy, Debug, PartialEq, Eq)]
pub struct BadMaking;

impl Numbered for BadMaking {
    ghost number = { making_number };

    fn number(&self) -> u8 {
        34
    }
}

impl Entry {
    // The entry of three bytes.
    fn of_bytes(message: u8, high: u8, low: u8) -> Entry
        ensures { result ≡ record { message = message; type_data = high * 256 + low } }
    {
        Entry {
            message,
            type_data: (high as u16) * 256 + (low as u16),
        }
    }

    #[tactic(auto, unfolding(crate::specs::Record::entry_bytes, bytes_be::specs::Number::to_bytes))]
    fn bytes(self) -> [u8; 3]
        ensures { result ≡ entry_bytes self }
    {
        let last = self.type_data.bytes();
        [self.message, last[0], last[1]]
    }

    #[tactic(auto, unfolding(crate::specs::Record::awaitable))]
    fn is_awaitable(self, flow: u8) -> bool
        ensures { result ≡ awaitable flow self }
    {
        (self.message == 3) | ((self.message == 4) & (flow == 1))
    }

    #[tactic(auto, unfolding(crate::specs::Record::is_none))]
    fn is_none(self) -> bool
        ensures { result ≡ is_none self }
    {
        (self.message == 0) & (self.type_data == 0)
    }

    // Whether entry i is among the first W and may be awaited, or behind them and zero.
    fn fits(self, flow: u8, w: u8, i: usize) -> bool
        ensures { result ≡ fits flow w self i }
    {
        if i < w as usize {
            return self.is_awaitable(flow);
        }
        self.is_none()
    }

    // The type of an entry as a wider number, of which sixteen can be added up.
    fn type_in(self) -> u16
        ensures { (result ≡ self.message) × (result < 256) }
    {
        self.message as u16
    }
}

fn in_limits(limit: u32) -> bool
    ensures { result ≡ in_limits limit }
{
    (1000000 <= limit) & (limit <= 50000000)
}

#[tactic(auto, unfolding(crate::specs::Record::unconfirmed_with))]
fn unconfirmed_with(unconfirmed: u8, entry: Entry) -> u8
    ensures { result ≡ unconfirmed_with unconfirmed entry }
{
    if unconfirmed < 16 {
        if entry.message == 4 {
            return unconfirmed + 1;
        }
    }
    unconfirmed
}

#[tactic(auto, unfolding(crate::specs::Record::unconfirmed_without))]
fn unconfirmed_without(unconfirmed: u8, entry: Entry) -> u8
    ensures { result ≡ unconfirmed_without unconfirmed entry }
{
    if entry.message != 4 {
        return unconfirmed;
    }
    unconfirmed.saturating_sub(1)
}

// What a good record is.
impl Endpoint {
    #[tactic(auto, unfolding(crate::specs::Record::in_ranges))]
    fn in_ranges(self) -> bool
        ensures { result ≡ in_ranges self }
    {
        (1 <= self.role)
            & (self.role <= 2)
            & ((1 <= self.flow) & (self.flow <= 2))
            & (self.phase <= 5)
            & (self.w <= 16)
    }

    #[tactic(auto, unfolding(crate::specs::Record::count_fits))]
    fn count_fits(self) -> bool
        ensures { result ≡ count_fits self }
    {
        if (self.phase == 3) | (self.phase == 4) {
            return (1 <= self.n) & (self.n <= 65535);
        }
        self.n == 0
    }

    #[tactic(auto, unfolding(crate::specs::Record::wait_fits))]
    fn wait_fits(self) -> bool
        ensures { result ≡ wait_fits self }
    {
        if (self.phase == 0) | (self.phase == 1) | (self.phase == 5) {
            return self.w == 0;
        }
        true
    }

    // Whether all but the entries and their count is as it should be.
    fn numbers_fit(self) -> bool
        ensures { result ≡ in_ranges self && count_fits self && wait_fits self && in_limits self.limit }
    {
        self.in_ranges() & self.count_fits() & self.wait_fits() & in_limits(self.limit)
    }

    // Whether each entry fits, and `unconfirmed` of them are of DATA. The first W that fit have type 3 or 4 and the others 0, so the sum of the
    // types tells how many are.
    fn each_fits(self) -> bool
        requires { self.w ≤ 16 }
        ensures { result ≡ all_fit self.entries self.flow self.w self.unconfirmed }
    {
        let entries = self.entries;
        let mut fit = true;
        let mut types = 0;
        for i in 0..16 {
            let at = 3 * i;
            let entry = Entry::of_bytes(entries[at], entries[at + 1], entries[at + 2]);
            fit = fit & entry.fits(self.flow, self.w, i);
            types += entry.type_in();
        }
        fit & (types == 3 * (self.w as u16) + (self.unconfirmed as u16))
    }

    // Whether all entries are zero.
    fn none_awaited(self) -> bool
        ensures { result ≡ every 16 (λ i. is_none (entry_at self.entries i)) }
    {
        let mut zero = true;
        for byte in self.entries {
            zero = zero & (byte == 0);
        }
        zero
    }

    fn entries_fit(self) -> bool
        requires { self.w ≤ 16 }
        ensures { result ≡ all_fit self.entries self.flow self.w self.unconfirmed }
    {
        if self.w == 0 {
            return self.none_awaited() & (self.unconfirmed == 0);
        }
        self.each_fits()
    }

    // Whether a record is good.
    pub fn good(self) -> bool
        ensures { result ≡ Record·good self }
    {
        let fit = self.numbers_fit();
        if fit {
            return self.entries_fit();
        }
        false
    }
}

// How a record is made, and how it changes.
impl Endpoint {
    // A fresh endpoint.
    #[tactic(auto, unfolding(crate::specs::Record::fresh_of))]
    fn fresh(role: u8, flow: u8, limit: u32) -> Endpoint
        ensures { result ≡ fresh_of role flow limit }
    {
        Endpoint {
            role,
            flow,
            phase: 0,
            w: 0,
            n: 0,
            limit,
            entries: [0; 48],
            unconfirmed: 0,
        }
    }

    // What stands for no endpoint.
    fn no_endpoint() -> Endpoint
        ensures { result ≡ no_endpoint }
    {
        Endpoint::fresh(0, 0, 0)
    }

    // The endpoint after a close.
    #[tactic(auto, unfolding(crate::specs::Record::closed, crate::specs::Record::at_phase, crate::specs::Record::fresh_of))]
    pub fn closed(self) -> Endpoint
        ensures { result ≡ Record·closed self }
    {
        Endpoint::fresh(self.role, self.flow, self.limit).at_phase(5, 0)
    }

    // The endpoint in another phase, with another n.
    #[tactic(auto, unfolding(crate::specs::Record::at_phase))]
    pub fn at_phase(self, phase: u8, n: u16) -> Endpoint
        ensures { result ≡ at_phase self phase n }
    {
        Endpoint { phase, n, ..self }
    }

    // The endpoint with another limit.
    #[tactic(auto, unfolding(crate::specs::Record::limited))]
    pub fn limited(self, limit: u32) -> Endpoint
        ensures { result ≡ Record·limited self limit }
    {
        Endpoint { limit, ..self }
    }

    // The entries with one more behind the first W.
    fn with_entry(self, entry: Entry) -> [u8; 48]
        requires { self.w < 16 }
        ensures { result ≡ put_at self.entries (3 * self.w) (entry_bytes entry) }
    {
        let mut next = self.entries;
        let bytes = entry.bytes();
        let at = 3 * (self.w as usize);
        next[at] = bytes[0];
        next[at + 1] = bytes[1];
        next[at + 2] = bytes[2];
        next
    }

    // The endpoint with one confirmation more that is awaited, where there is room for it.
    #[tactic(auto, unfolding(crate::specs::Record::asked))]
    pub fn asked(self, entry: Entry) -> Endpoint
        ensures { result ≡ Record·asked self entry }
    {
        if self.w < 16 {
            return Endpoint {
                w: self.w + 1,
                unconfirmed: unconfirmed_with(self.unconfirmed, entry),
                entries: self.with_entry(entry),
                ..self
            };
        }
        self
    }

    // Entry i of the record, of three zeros where i is 16 or more.
    pub fn entry_of(self, i: usize) -> Entry
        ensures { result ≡ entry_of self i }
    {
        let entries = self.entries;
        if i < 16 {
            let first = 3 * i;
            return Entry::of_bytes(entries[first], entries[first + 1], entries[first + 2]);
        }
        Entry::of_bytes(0, 0, 0)
    }

    // The oldest confirmation awaited; of a good record that awaits none, zero.
    pub fn oldest(self) -> Entry
        ensures { result ≡ Record·oldest self }
    {
        self.entry_of(0)
    }

    // The entries without entry i: those behind it move up. A receive takes a quarter longer where they are moved by the library's copy_within.
    fn without_entry(self, i: usize) -> [u8; 48]
        requires { i < 16 }
        ensures { result ≡ without_entry self.entries i }
    {
        let entries = self.entries;
        let mut rest = entries;
        for at in 3 * i..45 {
            rest[at] = entries[at + 3];
        }
        rest[45] = 0;
        rest[46] = 0;
        rest[47] = 0;
        rest
    }

    // The endpoint without entry i, with W one less, and the count one less where that entry is of DATA, where i is below 16.
    pub fn without(self, i: usize) -> Endpoint
        ensures { result ≡ Record·without self i }
    {
        if i < 16 {
            return Endpoint {
                w: self.w.saturating_sub(1),
                unconfirmed: unconfirmed_without(self.unconfirmed, self.entry_of(i)),
                entries: self.without_entry(i),
                ..self
            };
        }
        self
    }

    // The endpoint without the oldest confirmation awaited.
    #[tactic(auto, unfolding(crate::specs::Record::confirmed))]
    pub fn confirmed(self) -> Endpoint
        ensures { result ≡ Record·confirmed self }
    {
        self.without(0)
    }
}

// Whether flow and limit are ones that an endpoint can be made with.
#[tactic(auto, unfolding(crate::specs::Record::given_of))]
fn given_of(flow: u8, limit: u32) -> Result<(), BadMaking>
    ensures { result ≡ given_of flow limit }
{
    let fits = ((1 <= flow) & (flow <= 2)) & in_limits(limit);
    if fits {
        return Ok(());
    }
    Err(BadMaking)
}

// Makes an endpoint of this role.
#[tactic(auto, unfolding(crate::specs::Record::made_of, crate::specs::Record::given_of, crate::specs::Record::fresh_of))]
fn make(role: u8, flow: u8, limit: u32) -> Result<Endpoint, BadMaking>
    ensures { result ≡ made_of (fresh_of role flow limit) }
{
    let Ok(()) = given_of(flow, limit) else {
        return Err(BadMaking);
    };
    Ok(Endpoint::fresh(role, flow, limit))
}

// Makes a client of this flow and limit.
pub fn make_client(flow: u8, limit: u32) -> Result<Endpoint, BadMaking>
    ensures { result ≡ made_of (fresh_client flow limit) }
{
    make(1, flow, limit)
}

// Makes a server of this flow.
pub fn make_server(flow: u8) -> Result<Endpoint, BadMaking>
    ensures { result ≡ made_of (fresh_server flow) }
{
    make(2, flow, 50000000)
}

// The entries of a block of 64 bytes. With `copy_from_slice` the load of a block was no longer inlined, and calls took up to 8 per cent longer.
fn entries_in(block: &[u8]) -> [u8; 48]
    requires { length block.now ≡ 64 }
    ensures { result ≡ part block.now 16 48 }
{
    let mut entries = [0; 48];
    for i in 0..48 {
        entries[i] = block[16 + i];
    }
    entries
}

#[tactic(auto, unfolding(crate::specs::Block::record_in))]
fn record_in(block: &[u8]) -> Endpoint
    requires { length block.now ≡ 64 }
    ensures { result ≡ record_in block.now }
{
    Endpoint {
        role: bytes_be::read(block, 0),
        flow: bytes_be::read(block, 1),
        phase: bytes_be::read(block, 2),
        w: bytes_be::read(block, 3),
        n: bytes_be::read(block, 4),
        unconfirmed: bytes_be::read(block, 6),
        limit: bytes_be::read(block, 8),
        entries: entries_in(block),
    }
}

#[tactic(auto, using(bytes_be::proofs::Numbers::byte_there), unfolding(crate::specs::Block::spare_is_zero))]
fn spare_is_zero(block: &[u8]) -> bool
    requires { length block.now ≡ 64 }
    ensures { result ≡ spare_is_zero block.now }
{
    if block[7] == 0 {
        return bytes_be::read::<u32>(block, 12) == 0;
    }
    false
}

// Stores the entries behind the first 16 bytes of a block.
fn store_entries(entries: [u8; 48], block: &mut [u8])
    ensures stored { block.new ≡ put_at block.old 16 entries }
    ensures counted { length entries ≡ 48 }
{
    bytes_be::copy_at(block, 16, &entries);
}

// How a record stands in a block.
impl Endpoint {
    // The record that a block holds, which is good where the block is. It answers no Option: a call on a block that holds no endpoint is answered
    // by the number for a record that is not good, and `specs/Round: LoadedGood` is of every block.
    #[tactic(auto, unfolding(crate::specs::Block::load_of))]
    pub fn load(block: &[u8]) -> Endpoint
        ensures { result ≡ load_of block.now }
    {
        let none = Endpoint::no_endpoint();
        if block.len() != 64 {
            return none;
        }
        let spare = spare_is_zero(block);
        if spare {
            return record_in(block);
        }
        none
    }

    // Stores the first 16 bytes of a block that has room for all 64.
    fn store_head(self, block: &mut [u8])
        ensures { block.new ≡ cond (leb 64 (length block.old)) (put_at block.old 0 (head_bytes self)) block.old }
    {
        let room = 64 <= block.len();
        if room {
            let n = self.n.bytes();
            bytes_be::copy_at(block, 0, &[self.role, self.flow, self.phase, self.w]);
            bytes_be::copy_at(block, 4, &[n[0], n[1], self.unconfirmed, 0]);
            bytes_be::store(block, 8, self.limit);
            bytes_be::store::<u32>(block, 12, 0);
        }
    }

    // Stores the 64 bytes of a record at the start of a block, or nothing where they do not fit.
    pub fn store(self, block: &mut [u8])
        ensures { block.new ≡ put_at block.old 0 (bytes_of self) }
    {
        self.store_head(block);
        store_entries(self.entries, block);
    }
}
