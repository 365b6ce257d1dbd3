// The line that is written for a bundle's control frame.
#![tactic(auto)]

ghost use Rattle.std.specs.Prelude.{◌≡◌, ◌+◌, ◌≤◌, ◌++◌, length};
ghost use Rattle.line.specs.Text.{decimal};
ghost use Rattle.line.specs.Report.{report_of, name_of, refused_line, line_of, Put};
ghost use Rattle.line.specs.declared.Refusal.TheVariants.{ControlFrame};

use bundle::BadBundle;
use control::{Control, MessageType};
use numbered::Numbered;

// What the control frame says, and how many data frames come with it.
#[derive(Clone, Copy)]
pub struct Report {
    pub control: Control,
    pub frames: usize,
}

// Why an input has no control frame to report: the first of these that applies.
#[derive(Clone, Copy, Debug, PartialEq, Eq)]
pub enum Refusal {
    // More than 65,536 bytes.
    TooLong,
    BadBundle,
    ControlFrame(control::Refusal),
}

impl From<control::Refusal> for Refusal {
    ghost from_gives = { λ why refusal. refusal ≡ ControlFrame why };

    fn from(why: control::Refusal) -> Refusal {
        Refusal::ControlFrame(why)
    }
}

// What is to be said of an input.
#[tactic(auto, using(bundle::proofs::Sums::contents_some, bundle::proofs::Sums::control_inside), unfolding(crate::specs::Report::report_of))]
pub fn report_of(input: &[u8]) -> Result<Report, Refusal>
    ensures { result ≡ report_of input.now }
{
    if 65536 < input.len() {
        return Err(Refusal::TooLong);
    }
    let Ok(contents) = bundle::contents_of(input) else {
        return Err(Refusal::BadBundle);
    };
    let at = contents.control.at;
    let end = at + contents.control.length;
    let control = control::read(&input[at..end])?;
    Ok(Report {
        control,
        frames: contents.count - 1,
    })
}

// Writes a text at a place of the buffer, and answers the place behind it. Buffer and place are no struct with methods: its clauses would have to
// say of the lent buffer, beside the text, what the caller has back. Nor does `write!` do it, whose answer may be an error, which `fill` has not.
fn put(out: &mut [u8], at: usize, text: &[u8]) -> usize
    requires { at + length text.now ≤ length out.old }
    ensures { Put text.now out.old at result out.new }
{
    bytes_be::copy_at(out, at, text);
    at + text.len()
}

// The same of a label and a number behind it.
fn put_field(out: &mut [u8], at: usize, label: &[u8], number: u64) -> usize
    requires { at + length label.now + 20 ≤ length out.old }
    ensures { Put (label.now ++ decimal number) out.old at result out.new × (result ≤ at + length label.now + 20) }
{
    // A fixed buffer, as there is no heap.
    let mut digits = [0u8; 20];
    let count = io::decimal(number, &mut digits);
    let next = put(out, at, label);
    put(out, next, &digits[..count])
}

fn name_of(message: MessageType) -> &'static [u8]
    ensures { result.now ≡ name_of message }
{
    match message {
        MessageType::Open => b"OPEN",
        MessageType::Ready => b"READY",
        MessageType::Noop => b"NOOP",
        MessageType::Data => b"DATA",
        MessageType::Close => b"CLOSE",
    }
}

#[tactic(auto, using(crate::proofs::Puts::name_short))]
fn fill_message(out: &mut [u8], report: Report) -> usize
    requires { 96 ≤ length out.old }
    ensures { Put (line_of (Ok report)) out.old 0 result out.new }
{
    let control = report.control;
    let named = put(out, 0, name_of(control.message));
    let flagged = put_field(out, named, b" v1 flags=", control.flags as u64);
    let said = put_field(out, flagged, b" data=", control.type_data as u64);
    let counted = put_field(out, said, b" frames=", report.frames as u64);
    put(out, counted, b"\n")
}

fn fill_refused(out: &mut [u8], number: u8) -> usize
    requires { 96 ≤ length out.old }
    ensures { Put (refused_line number) out.old 0 result out.new }
{
    let refused = put_field(out, 0, b"refused ", number as u64);
    put(out, refused, b"\n")
}

#[tactic(auto, unfolding(crate::specs::Report::line_of))]
fn fill_report(out: &mut [u8], report: Result<Report, Refusal>) -> usize
    requires { 96 ≤ length out.old }
    ensures { Put (line_of report) out.old 0 result out.new }
{
    match report {
        Ok(report) => fill_message(out, report),
        Err(Refusal::TooLong) => put(out, 0, b"too long\n"),
        Err(Refusal::BadBundle) => fill_refused(out, BadBundle.number()),
        Err(Refusal::ControlFrame(why)) => fill_refused(out, why.number()),
    }
}

// Fills a buffer from its start with the line for an input, and answers the line's length.
pub fn fill(input: &[u8], out: &mut [u8; 96]) -> usize
    ensures { Put (line_of (report_of input.now)) out.old 0 result out.new }
{
    fill_report(out, report_of(input))
}
