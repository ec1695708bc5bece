//! The runs of a row.

use crate::pieces::{PieceReader, PieceWriter};
use crate::row::{Ending, Faulty, Output, Place, Row};
use anyhow::Context;
use base_io::bytes::{Bytes, CallNumbers};
use base_io::memory_sink::MemorySink;
use base_io::memory_source::MemorySource;
use base_io::std_sink::StdSink;
use base_io::std_source::StdSource;
use std::alloc::{AllocError, Global};
use tool_host::driver::mirdwarf;

/// How many runs came out as written, and how many others there are.
#[derive(Clone, Copy, Default)]
pub struct Tally {
    pub as_written: u32,
    pub others: u32,
}

/// How a run ended: the number of its status, its output, and what was told.
#[derive(Drop)]
struct Ended {
    status: u8,
    output: PieceWriter,
    told: MemorySink,
}

/// A word of a run by its text, which is `""` for the empty word.
fn word_of(text: &str) -> &str {
    if text == "\"\"" { "" } else { text }
}

/// Appends the words of a run.
fn push_words(alloc: Global, text: &str, words: &mut Vec<String>) -> Result<(), AllocError> {
    for text in text.split(' ') {
        let word = String::from_str(alloc, word_of(text))?;
        words.push(word)?;
    }
    Ok(())
}

/// The words of a run.
fn words_of(alloc: Global, text: &str) -> Result<Vec<String>, AllocError> {
    let mut words = Vec::new(alloc);
    if !text.is_empty() {
        push_words(alloc, text, &mut words)?;
    }
    Ok(words)
}

/// The numbers of the calls that fail: this one.
fn calls(alloc: Global, number: u64) -> Result<CallNumbers, AllocError> {
    CallNumbers::from_slice(alloc, &[number])
}

/// Runs words on a text.
fn run_on(alloc: Global, words: &str, text: &[u8], faulty: Faulty) -> Result<Ended, AllocError> {
    let words = words_of(alloc, words)?;
    let text = Bytes::from_slice(alloc, text)?;
    let source = MemorySource::new(text, calls(alloc, faulty.read)?);
    let mut input = StdSource::new(PieceReader {
        source,
        most: faulty.gives,
    });
    let sink = MemorySink::new(alloc, faulty.room, calls(alloc, faulty.write)?)?;
    let mut output = PieceWriter {
        sink,
        most: faulty.takes,
    };
    let mut told = MemorySink::new(alloc, faulty.tells, CallNumbers::new(alloc))?;
    let status = mirdwarf(
        alloc,
        &words,
        &mut input,
        &mut StdSink::new(&mut output),
        &mut told,
    );
    Ok(Ended {
        status: status.number(),
        output,
        told,
    })
}

/// Whether bytes stand anywhere among others.
fn holds(written: &[u8], bytes: &[u8]) -> bool {
    if bytes.is_empty() {
        return true;
    }
    for window in written.windows(bytes.len()) {
        if window == bytes {
            return true;
        }
    }
    false
}

/// Whether bytes stand on the output where they should.
fn stands(output: &Output, written: &[u8]) -> bool {
    let bytes = output.bytes.as_slice();
    match output.place {
        Place::Whole => written == bytes,
        Place::Begins => written.starts_with(bytes),
        Place::Ends => written.ends_with(bytes),
        Place::Holds => holds(written, bytes),
    }
}

/// Whether a run ended as it should.
fn is_as_written(ended: &Ended, want: &Ending) -> bool {
    let written = ended.output.sink.written();
    let is_said = written.is_empty() || !want.outputs.is_empty();
    let is_told = ended.told.written() == want.told.as_slice();
    let all_stand = want.outputs.iter().all(|it| stands(it, written));
    ended.status == want.status && is_said && is_told && all_stand
}

/// A run of a row, and how it is to end.
#[derive(Clone, Copy)]
struct Run<'a> {
    row: &'a Row,
    words: &'a str,
    text: &'a [u8],
    faulty: Faulty,
    want: &'a Ending,
}

/// Prints a run that didn't end as it should.
fn tell(rt: &impl Print, alloc: Global, run: &Run<'_>, ended: &Ended) -> anyhow::Result<()> {
    let name = run.row.name.as_str();
    let words = run.words;
    let Faulty {
        read,
        write,
        gives,
        takes,
        room,
        tells,
    } = run.faulty;
    let status = ended.status;
    let told = String::from_utf8_lossy(alloc, ended.told.written())?;
    let output = String::from_utf8_lossy(alloc, ended.output.sink.written())?;
    println!(rt;
        "{name}: {words}: read {read}, write {write}, gives {gives}, takes {takes}, room {room}, tells {tells}"
    )?;
    println!(rt; "status {status}, told {told:?}, output:")?;
    println!(rt; "{output}")?;
    if run.row.texts.len() > 1 {
        let text = String::from_utf8_lossy(alloc, run.text)?;
        println!(rt; "of the text {text:?}")?;
    }
    Ok(())
}

/// Makes a run and counts it; one that doesn't end as it should is printed.
fn make_run(rt: &impl Print, alloc: Global, run: Run<'_>, tally: &mut Tally) -> anyhow::Result<()> {
    let ended = run_on(alloc, run.words, run.text, run.faulty)?;
    if is_as_written(&ended, run.want) != run.row.differs {
        tally.as_written = tally.as_written.saturating_add(1);
        return Ok(());
    }
    tally.others = tally.others.saturating_add(1);
    tell(rt, alloc, &run, &ended)
}

/// Makes a run again with each call of its input failing, up to that of this number.
fn fail_reads(
    rt: &impl Print,
    alloc: Global,
    run: Run<'_>,
    tally: &mut Tally,
) -> anyhow::Result<()> {
    let want = Ending::new(alloc, 4, b"", b"mirdwarf: read\n")?;
    for earlier in 0..run.row.reads {
        let read = u64::from(earlier) + 1;
        let faulty = Faulty { read, ..run.faulty };
        let want = &want;
        let failing = Run {
            faulty,
            want,
            ..run
        };
        make_run(rt, alloc, failing, tally)?;
    }
    Ok(())
}

/// Makes a run again with each call of its output failing, up to that of this number. The calls before it have taken
/// as much as they do.
fn fail_writes(
    rt: &impl Print,
    alloc: Global,
    run: Run<'_>,
    tally: &mut Tally,
) -> anyhow::Result<()> {
    if run.row.writes == 0 {
        return Ok(());
    }
    let whole = run.want.whole().context("writes without a whole output")?;
    for earlier in 0..run.row.writes {
        let write = u64::from(earlier) + 1;
        let faulty = Faulty {
            write,
            ..run.faulty
        };
        let taken = faulty
            .takes
            .saturating_mul(earlier as usize)
            .min(whole.len());
        let want = &Ending::new(alloc, 5, &whole[..taken], b"mirdwarf: write\n")?;
        let failing = Run {
            faulty,
            want,
            ..run
        };
        make_run(rt, alloc, failing, tally)?;
    }
    Ok(())
}

/// Makes a run again with each room that is too small for its output.
fn fill_rooms(
    rt: &impl Print,
    alloc: Global,
    run: Run<'_>,
    tally: &mut Tally,
) -> anyhow::Result<()> {
    let whole = run.want.whole().context("rooms without a whole output")?;
    for room in 0..whole.len() {
        let faulty = Faulty { room, ..run.faulty };
        let want = &Ending::new(alloc, 5, &whole[..room], b"mirdwarf: write\n")?;
        let failing = Run {
            faulty,
            want,
            ..run
        };
        make_run(rt, alloc, failing, tally)?;
    }
    Ok(())
}

/// Makes all runs of a row with these words on this text.
fn run_text(
    rt: &impl Print,
    alloc: Global,
    row: &Row,
    words: &str,
    text: &[u8],
    tally: &mut Tally,
) -> anyhow::Result<()> {
    let run = Run {
        row,
        words,
        text,
        faulty: row.faulty,
        want: &row.ending,
    };
    make_run(rt, alloc, run, tally)?;
    fail_reads(rt, alloc, run, tally)?;
    fail_writes(rt, alloc, run, tally)?;
    if row.rooms {
        fill_rooms(rt, alloc, run, tally)?;
    }
    Ok(())
}

/// Makes all runs of a row.
pub fn run_row(rt: &impl Print, alloc: Global, row: &Row, tally: &mut Tally) -> anyhow::Result<()> {
    for words in &row.words {
        if row.texts.is_empty() && row.piped.is_empty() {
            run_text(rt, alloc, row, words.as_str(), b"", tally)?;
        }
        for text in &row.texts {
            run_text(rt, alloc, row, words.as_str(), text.as_slice(), tally)?;
        }
        for piped in &row.piped {
            let written = run_on(alloc, piped.as_str(), b"", Faulty::NONE)?;
            let text = written.output.sink.written();
            run_text(rt, alloc, row, words.as_str(), text, tally)?;
        }
    }
    Ok(())
}
