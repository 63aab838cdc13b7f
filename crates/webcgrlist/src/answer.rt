//! What the host gets of a call.

ghost use Rattle.std.specs.Prelude.{◌≡◌};
ghost use Rattle.webcgrlist.specs.Answers.{Answers, Writes, all_fit, host_status, texts_of, lengths_in};
ghost use Rattle.webcgrlist.specs.Lent.{ComesBack};

use crate::call::Call;
use crate::lending::run_within;
use crate::outputs::{Lengths, Outputs};
use commands::Status;
use host::{Buffer, Region};

/// Runs a call over three buffers, and returns how it ended, with the lengths of its texts.
fn write_texts(
    memory: &mut Region,
    call: Call<'_, '_>,
    report: &mut [u8],
    session: &mut [u8],
    message: &mut [u8],
) -> (Status, Lengths)
    ensures texts { Writes call.entry.run call.entry.asked.now (record { report = report.old; session = session.old; message = message.old }) (record { report = report.new; session = session.new; message = message.new }) result.1 result.0 }
    ensures memory { ComesBack memory.old memory.new }
{
    let mut report = Buffer::new(report);
    let mut session = Buffer::new(session);
    let mut message = Buffer::new(message);
    let ended = run_within(memory, call, &mut report, &mut session, &mut message);
    let lengths = Lengths {
        report: report.length(),
        session: session.length(),
        message: message.length(),
    };
    (ended, lengths)
}

/// Runs a call over its outputs, and returns how it ended.
fn write_outputs(
    memory: &mut Region,
    call: Call<'_, '_>,
    outputs: &mut Outputs<'_, '_, '_>,
) -> Status
    ensures texts { Writes call.entry.run call.entry.asked.now (texts_of outputs.old) (texts_of outputs.new) (lengths_in outputs.new) result }
    ensures memory { ComesBack memory.old memory.new }
{
    let Outputs {
        report,
        session,
        message,
    } = outputs;
    let (ended, lengths) = write_texts(memory, call, report.buffer, session.buffer, message.buffer);
    report.length = lengths.report;
    session.length = lengths.session;
    message.length = lengths.message;
    ended
}

/// Whether each text fits into its buffer.
fn all_fit(outputs: &Outputs<'_, '_, '_>) -> bool
    ensures { result ≡ all_fit outputs.now }
{
    outputs.report.length <= outputs.report.buffer.len()
        && outputs.session.length <= outputs.session.buffer.len()
        && outputs.message.length <= outputs.message.buffer.len()
}

/// The status that the host gets: that of memory, if a text doesn't fit into its buffer, or a writer failed.
fn host_status(fit: bool, ended: Status) -> Status
    ensures { result ≡ host_status fit ended }
{
    if !fit || ended == Status::Io {
        return Status::Memory;
    }
    ended
}

/// Runs a call, and returns the number of the status that the host gets.
pub fn answer(memory: &mut Region, call: Call<'_, '_>, outputs: &mut Outputs<'_, '_, '_>) -> u32
    ensures answer { Answers call.entry.run call.entry.asked.now outputs.old outputs.new result }
    ensures memory { ComesBack memory.old memory.new }
{
    let ended = write_outputs(memory, call, outputs);
    host_status(all_fit(outputs), ended).number() as u32
}
