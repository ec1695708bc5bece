//! The rows of a file.

use crate::part::{Part, Texts};
use anyhow::{Context, bail};
use std::alloc::{AllocError, Global};

/// Room for every output.
const ROOM: usize = 1 << 20;

/// Room for all that is told.
const TOLD: usize = 1 << 10;

/// Faults of a run: which call of its input fails, and which call of its output; how many bytes a call of each moves
/// at most; and how many bytes its output and its errors have room for. No call has the number 0.
#[derive(Clone, Copy)]
pub struct Faulty {
    pub read: u64,
    pub write: u64,
    pub gives: usize,
    pub takes: usize,
    pub room: usize,
    pub tells: usize,
}

impl Faulty {
    /// No fault but those of words and text.
    pub const NONE: Faulty = Faulty {
        read: 0,
        write: 0,
        gives: usize::MAX,
        takes: usize::MAX,
        room: ROOM,
        tells: TOLD,
    };
}

/// Where bytes stand on the output.
#[derive(Clone, Copy)]
pub enum Place {
    Whole,
    Begins,
    Ends,
    Holds,
}

/// Bytes that stand on the output.
#[derive(Drop)]
pub struct Output {
    pub place: Place,
    pub bytes: Vec<u8>,
}

/// How a run ends: the number of its status, what stands on its output, and what is told.
#[derive(Drop)]
pub struct Ending {
    pub status: u8,
    /// With none of these the output is empty.
    pub outputs: Vec<Output>,
    pub told: Vec<u8>,
}

/// A row: what is run, and how each run is to end.
#[derive(Drop)]
pub struct Row {
    pub name: String,
    /// The words of each run, apart by one space.
    pub words: Vec<String>,
    /// The text of each run: none is the text of no bytes.
    pub texts: Vec<Vec<u8>>,
    /// Words whose output is the text of a run.
    pub piped: Vec<String>,
    pub faulty: Faulty,
    pub ending: Ending,
    /// Whether it is run with each room that is less than the output's length too.
    pub rooms: bool,
    /// With how many calls of the input failing, one after the other, it is run too.
    pub reads: u32,
    /// With how many calls of the output failing, one after the other, it is run too.
    pub writes: u32,
    /// Whether each run is to end otherwise than it says.
    pub differs: bool,
}

impl Ending {
    /// A status with all of the output and all that is told.
    pub fn new(
        alloc: Global,
        status: u8,
        output: &[u8],
        told: &[u8],
    ) -> Result<Ending, AllocError> {
        let bytes = Vec::from_slice(alloc, output)?;
        let told = Vec::from_slice(alloc, told)?;
        let place = Place::Whole;
        let outputs = vec![in alloc; Output { place, bytes }]?;
        Ok(Ending {
            status,
            outputs,
            told,
        })
    }

    /// All of the output, where that is said.
    pub fn whole(&self) -> Option<&[u8]> {
        match self.outputs.as_slice() {
            [] => Some(&[]),
            [only] => match only.place {
                Place::Whole => Some(only.bytes.as_slice()),
                Place::Begins | Place::Ends | Place::Holds => None,
            },
            _ => None,
        }
    }
}

impl Row {
    fn new(alloc: Global, name: &str) -> Result<Row, AllocError> {
        Ok(Row {
            name: String::from_str(alloc, name)?,
            words: Vec::new(alloc),
            texts: Vec::new(alloc),
            piped: Vec::new(alloc),
            faulty: Faulty::NONE,
            ending: Ending {
                status: 0,
                outputs: Vec::new(alloc),
                told: Vec::new(alloc),
            },
            rooms: false,
            reads: 0,
            writes: 0,
            differs: false,
        })
    }

    /// Takes what a part says.
    fn take(&mut self, part: Part<'_>, texts: &Texts) -> anyhow::Result<()> {
        let rest = part.rest;
        match part.word {
            "words" => {
                let words = String::from_str(*self.words.allocator(), rest)?;
                self.words.push(words)?;
            }
            "text" => {
                let text = texts.bytes(part)?;
                self.texts.push(text)?;
            }
            "piped" => {
                let words = String::from_str(*self.piped.allocator(), rest)?;
                self.piped.push(words)?;
            }
            "read" => self.faulty.read = rest.parse::<u64>()?,
            "write" => self.faulty.write = rest.parse::<u64>()?,
            "gives" => self.faulty.gives = rest.parse::<usize>()?,
            "takes" => self.faulty.takes = rest.parse::<usize>()?,
            "room" => self.faulty.room = rest.parse::<usize>()?,
            "tells" => self.faulty.tells = rest.parse::<usize>()?,
            "status" => self.ending.status = rest.parse::<u8>()?,
            "output" => {
                let place = place_named(rest).context("whole, begins, ends or holds")?;
                let bytes = texts.bytes(part)?;
                self.ending.outputs.push(Output { place, bytes })?;
            }
            "told" => self.ending.told = texts.bytes(part)?,
            "rooms" => self.rooms = true,
            "reads" => self.reads = rest.parse::<u32>()?,
            "writes" => self.writes = rest.parse::<u32>()?,
            "differs" => self.differs = true,
            word => bail!("no part is called {word}"),
        }
        Ok(())
    }
}

fn place_named(name: &str) -> Option<Place> {
    match name {
        "" => Some(Place::Whole),
        "begins" => Some(Place::Begins),
        "ends" => Some(Place::Ends),
        "holds" => Some(Place::Holds),
        _ => None,
    }
}

/// Takes a part into the texts, as a new row, or into the last row.
fn take_part(
    alloc: Global,
    part: Part<'_>,
    texts: &mut Texts,
    rows: &mut Vec<Row>,
) -> anyhow::Result<()> {
    match part.word {
        "let" => texts.name(part),
        "row" => Ok(rows.push(Row::new(alloc, part.rest)?)?),
        word => match rows.last_mut() {
            Some(row) => row.take(part, texts),
            None => bail!("no row is above {word}"),
        },
    }
}

/// The rows of a file's text.
pub fn rows_of(alloc: Global, text: &str) -> anyhow::Result<Vec<Row>> {
    let text = text.strip_suffix('\n').unwrap_or(text);
    let text = text.strip_prefix("==== ").context("a part at the start")?;
    let mut texts = Texts::new(alloc);
    let mut rows = Vec::new(alloc);
    for text in text.split("\n==== ") {
        take_part(alloc, Part::new(text), &mut texts, &mut rows)?;
    }
    Ok(rows)
}
