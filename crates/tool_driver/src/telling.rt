//! The line that reports a fault.

ghost use Rattle.std.specs.Prelude.{◌≡◌, ◌≤◌, OnOk, OnErr};
ghost use Rattle.base_io.specs.Faults.{CountRose};
ghost use Rattle.base_io.specs.Told.{Appends, AppendsPrefix};
ghost use Rattle.cli.specs.Fault.{line_of, place_text, status_of};
ghost use Rattle.tool_driver.specs.Stream.{change, IsTold};

use base_io::fault::Failed;
use base_io::sink::Sink;
use base_io::writing::write_all;
use cli::fault::Fault;
use cli::status::Status;
use itoa::Buffer;

/// Writes the line that reports a fault, as far as the sink takes it, and returns the status of a run that ends in
/// this fault.
pub fn tell<E: Sink>(fault: Fault, faults: &mut E) -> Status
    ensures status { result ≡ status_of fault }
    ensures line { IsTold (change E.written E.faults faults.old faults.new) (line_of fault) }
    ensures counts { E.faults faults.old ≤ E.faults faults.new }
{
    let _ = write_line(fault, faults);
    fault.status()
}

/// Writes the line that reports a fault, piece by piece, since formatting a number would take memory.
fn write_line<E: Sink>(fault: Fault, faults: &mut E) -> Result<(), Failed>
    ensures ok { OnOk result (Appends (E.written faults.old) (E.written faults.new) (line_of fault)) }
    ensures err { OnErr result (AppendsPrefix (E.written faults.old) (E.written faults.new) (line_of fault)) }
    ensures failed { OnErr result (CountRose (E.faults faults.old) (E.faults faults.new)) }
    ensures counts { E.faults faults.old ≤ E.faults faults.new }
{
    write_all(faults, b"mirdwarf: ")?;
    write_place(fault.input_line(), faults)?;
    write_all(faults, fault.name().as_bytes())?;
    write_all(faults, b"\n")
}

/// Writes the line number of a refusal in the input, if it has one.
fn write_place<E: Sink>(line: Option<u32>, faults: &mut E) -> Result<(), Failed>
    ensures ok { OnOk result (Appends (E.written faults.old) (E.written faults.new) (place_text line)) }
    ensures err { OnErr result (AppendsPrefix (E.written faults.old) (E.written faults.new) (place_text line)) }
    ensures failed { OnErr result (CountRose (E.faults faults.old) (E.faults faults.new)) }
    ensures counts { E.faults faults.old ≤ E.faults faults.new }
{
    match line {
        None => Ok(()),
        Some(number) => write_number(number, faults),
    }
}

fn write_number<E: Sink>(number: u32, faults: &mut E) -> Result<(), Failed>
    ensures ok { OnOk result (Appends (E.written faults.old) (E.written faults.new) (place_text (Some number))) }
    ensures err { OnErr result (AppendsPrefix (E.written faults.old) (E.written faults.new)
        (place_text (Some number))) }
    ensures failed { OnErr result (CountRose (E.faults faults.old) (E.faults faults.new)) }
    ensures counts { E.faults faults.old ≤ E.faults faults.new }
{
    let mut buffer = Buffer::new();
    write_all(faults, b"line ")?;
    write_all(faults, buffer.format(number).as_bytes())?;
    write_all(faults, b": ")
}
