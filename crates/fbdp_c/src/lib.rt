// The C interface: each entry of fbdp under its own name, with its clauses.
#![tactic(auto)]

ghost use Rattle.open.specs.Offer.{offer_of};
ghost use Rattle.endpoint.specs.Record.{fresh_client, fresh_server};
ghost use Rattle.sending.specs.Calls.{OPEN, READY, DATA, NOOP, CLOSE};
ghost use Rattle.sending.specs.Options.{asking, is_chosen};
ghost use Rattle.fbdp.specs.Blocks.{MakeAnswer, datum_of, SendOnBlock, ReceiveOnBlock};
ghost use Rattle.fbdp.specs.Entries.{InterfaceAnswer, FrameAnswer, ValueAnswer, LookupAnswer};

// The number of the interface, which the name of the function has too.
#[unsafe(no_mangle)]
pub extern "C" fn fbdp_interface_3() -> u32
    ensures { InterfaceAnswer result }
{
    fbdp::fbdp_interface_3()
}

// The place of the frame at `index` of a bundle, counted from 0.
#[unsafe(no_mangle)]
pub extern "C" fn fbdp_frame(bundle: &[u8], index: u32, slots: &mut [u64; 3]) -> u32
    ensures { FrameAnswer bundle.now index result slots.new }
{
    fbdp::fbdp_frame(bundle, index, slots)
}

// What a Value that is lent alone holds.
#[unsafe(no_mangle)]
pub extern "C" fn fbdp_value(bytes: &[u8], slots: &mut [u64; 3]) -> u32
    ensures { ValueAnswer bytes.now result slots.new }
{
    fbdp::fbdp_value(bytes, slots)
}

// Where the Value of a key stands in the client's parameters, and failing that in the default Struct.
#[unsafe(no_mangle)]
pub extern "C" fn fbdp_lookup(
    client: &[u8],
    defaults: &[u8],
    key: &[u8],
    slots: &mut [u64; 3],
) -> u32
    ensures { LookupAnswer client.now defaults.now key.now result slots.new }
{
    fbdp::fbdp_lookup(client, defaults, key, slots)
}

// Makes a fresh client of this flow and limit.
#[unsafe(no_mangle)]
pub extern "C" fn fbdp_make_client(block: &mut [u8], flow: u8, limit: u32) -> u32
    ensures { MakeAnswer (fresh_client flow limit) block.old result block.new }
{
    fbdp::fbdp_make_client(block, flow, limit)
}

// Makes a fresh server of this flow.
#[unsafe(no_mangle)]
pub extern "C" fn fbdp_make_server(block: &mut [u8], flow: u8) -> u32
    ensures { MakeAnswer (fresh_server flow) block.old result block.new }
{
    fbdp::fbdp_make_server(block, flow)
}

// Sends OPEN for this pipe name and this format.
#[unsafe(no_mangle)]
pub extern "C" fn fbdp_send_open(
    block: &mut [u8],
    name: &[u8],
    format: &[u8],
    out: &mut [u8],
    written: &mut u64,
) -> u32
    ensures { SendOnBlock (OPEN (offer_of name.now format.now)) block.old out.old result written.new block.new out.new }
{
    fbdp::fbdp_send_open(block, name, format, out, written)
}

// Sends READY with this count.
#[unsafe(no_mangle)]
pub extern "C" fn fbdp_send_ready(
    block: &mut [u8],
    count: u16,
    out: &mut [u8],
    written: &mut u64,
) -> u32
    ensures { SendOnBlock (READY count) block.old out.old result written.new block.new out.new }
{
    fbdp::fbdp_send_ready(block, count, out, written)
}

// Sends DATA with this body, or without one.
#[unsafe(no_mangle)]
pub extern "C" fn fbdp_send_data(
    block: &mut [u8],
    type_data: u16,
    how: u8,
    body: &[u8],
    out: &mut [u8],
    written: &mut u64,
) -> u32
    ensures { SendOnBlock (DATA (datum_of type_data how body.now)) block.old out.old result written.new block.new out.new }
{
    fbdp::fbdp_send_data(block, type_data, how, body, out, written)
}

// Sends NOOP.
#[unsafe(no_mangle)]
pub extern "C" fn fbdp_send_noop(
    block: &mut [u8],
    type_data: u16,
    how: u8,
    out: &mut [u8],
    written: &mut u64,
) -> u32
    ensures { SendOnBlock (NOOP type_data (is_chosen asking how)) block.old out.old result written.new block.new out.new }
{
    fbdp::fbdp_send_noop(block, type_data, how, out, written)
}

// Sends CLOSE with this code.
#[unsafe(no_mangle)]
pub extern "C" fn fbdp_send_close(
    block: &mut [u8],
    code: u16,
    out: &mut [u8],
    written: &mut u64,
) -> u32
    ensures { SendOnBlock (CLOSE code) block.old out.old result written.new block.new out.new }
{
    fbdp::fbdp_send_close(block, code, out, written)
}

// Receives a message.
#[unsafe(no_mangle)]
pub extern "C" fn fbdp_receive(
    block: &mut [u8],
    message: &[u8],
    name: &[u8],
    format: &[u8],
    out: &mut [u8],
    heard: &mut [u64; 16],
) -> u32
    ensures { ReceiveOnBlock message.now (offer_of name.now format.now) block.old out.old result heard.new block.new out.new }
{
    fbdp::fbdp_receive(block, message, name, format, out, heard)
}
