//! Cases, line by line, as their files have them.
use crate::outcome::Outcome;
use buck_record::Memory;
use buck_rule::NamedRule;
use std::alloc::Global;

/// What runs a case.
#[derive(Clone, Copy, Drop)]
pub enum Engine {
    /// An instruction and stems in one input.
    Bare,
    /// An instruction file and a stem file.
    Buck,
    /// A fleet of one harvester, by a rule.
    Fleet(NamedRule),
    /// An instruction file and a journal.
    Check,
    /// The command line, by its words.
    Words,
}

/// The part of a case that a line of bytes belongs to.
#[derive(Clone, Copy, Drop)]
enum Part {
    Input,
    Apt,
    Stm,
    Jrn,
    /// The file that the words may name at this place.
    File(usize),
    Prints,
    Keeps,
}

/// A file that the words of a case may name.
#[derive(Drop)]
pub struct Named {
    pub name: String,
    pub bytes: Vec<u8>,
}

/// The files that a case is run on. One that a case leaves out is that of the case before it.
#[derive(Drop)]
pub struct Inputs {
    /// An instruction and stems, with a bar between them; of the command line, all of standard input.
    pub input: Vec<u8>,
    /// An instruction file.
    pub apt: Vec<u8>,
    /// A stem file.
    pub stm: Vec<u8>,
    /// A journal.
    pub jrn: Vec<u8>,
    /// The files of the command line.
    pub files: Vec<Named>,
}

/// A case, as far as it was read.
#[derive(Drop)]
pub struct Case<'a> {
    pub title: &'a str,
    pub engine: Engine,
    /// The words of the command line, the program's name first.
    pub words: Vec<String>,
    pub inputs: Inputs,
    pub wanted: Outcome,
    part: Part,
}

/// The number that a hexadecimal digit stands for.
fn digit_of(byte: u8) -> Option<u8> {
    match byte {
        b'0'..=b'9' => Some(byte - b'0'),
        b'a'..=b'f' => Some(byte - b'a' + 10),
        _ => None,
    }
}

/// Where the reading of a line of bytes is.
#[derive(Clone, Copy, Drop)]
enum At {
    /// Between bytes.
    Byte,
    /// After a backslash.
    Escape,
    /// After a backslash and `x`.
    First,
    /// After the first digit of a byte.
    Second(u8),
}

/// Adds what one more byte of a line stands for, and says where the reading is then, or none if it can't be read.
fn put_byte(out: &mut Vec<u8>, at: At, byte: u8) -> Result<Option<At>, Memory> {
    match at {
        At::Byte if byte == b'\\' => Ok(Some(At::Escape)),
        At::Byte => {
            out.push(byte)?;
            Ok(Some(At::Byte))
        }
        At::Escape if byte == b'\\' => {
            out.push(byte)?;
            Ok(Some(At::Byte))
        }
        At::Escape if byte == b'x' => Ok(Some(At::First)),
        At::Escape => Ok(None),
        At::First => match digit_of(byte) {
            None => Ok(None),
            Some(high) => Ok(Some(At::Second(high))),
        },
        At::Second(high) => match digit_of(byte) {
            None => Ok(None),
            Some(low) => {
                out.push(high % 16 * 16 + low % 16)?;
                Ok(Some(At::Byte))
            }
        },
    }
}

/// Adds the bytes of a line: `\\` is a backslash, `\xc3` the byte of that number, and a backslash at the end leaves out
/// the line's end. Says whether it can be read.
fn put_line(out: &mut Vec<u8>, line: &str) -> Result<bool, Memory> {
    let mut at = At::Byte;
    for byte in line.as_bytes() {
        match put_byte(out, at, *byte)? {
            None => return Ok(false),
            Some(next) => at = next,
        }
    }
    match at {
        At::Byte => {
            out.push(b'\n')?;
            Ok(true)
        }
        At::Escape => Ok(true),
        _ => Ok(false),
    }
}

/// What runs a case, by the words after `run`.
fn engine_of(words: &str) -> Option<Engine> {
    match words {
        "bare" => Some(Engine::Bare),
        "buck" => Some(Engine::Buck),
        "check" => Some(Engine::Check),
        "words" => Some(Engine::Words),
        _ => {
            let rule = NamedRule::of_name(words.strip_prefix("fleet ")?)?;
            Some(Engine::Fleet(rule))
        }
    }
}

impl<'a> Case<'a> {
    /// No case, before the first of a file.
    pub fn none(alloc: Global) -> Case<'a> {
        Case {
            title: "",
            engine: Engine::Bare,
            words: Vec::new(alloc),
            inputs: Inputs {
                input: Vec::new(alloc),
                apt: Vec::new(alloc),
                stm: Vec::new(alloc),
                jrn: Vec::new(alloc),
                files: Vec::new(alloc),
            },
            wanted: Outcome::none(alloc),
            part: Part::Input,
        }
    }

    /// Whether there is a case.
    pub fn is_begun(&self) -> bool {
        !self.title.is_empty()
    }

    /// Begins a file that the words may name, in the place of the one that has its name.
    fn begin_file(&mut self, alloc: Global, name: &str) -> Result<(), Memory> {
        for (at, file) in self.inputs.files.iter_mut().enumerate() {
            if file.name.as_str() == name {
                file.bytes.clear();
                self.part = Part::File(at);
                return Ok(());
            }
        }
        self.part = Part::File(self.inputs.files.len());
        self.inputs.files.push(Named {
            name: String::from_str(alloc, name)?,
            bytes: Vec::new(alloc),
        })?;
        Ok(())
    }

    /// Adds a line of bytes to the part that it belongs to.
    fn put(&mut self, line: &str) -> Result<bool, Memory> {
        match self.part {
            Part::Input => put_line(&mut self.inputs.input, line),
            Part::Apt => put_line(&mut self.inputs.apt, line),
            Part::Stm => put_line(&mut self.inputs.stm, line),
            Part::Jrn => put_line(&mut self.inputs.jrn, line),
            Part::File(at) => match self.inputs.files.get_mut(at) {
                None => Ok(false),
                Some(file) => put_line(&mut file.bytes, line),
            },
            Part::Prints => put_line(&mut self.wanted.text, line),
            Part::Keeps => put_line(&mut self.wanted.journal, line),
        }
    }

    /// Begins a file of the case, or a text that it wants, by a line that names it.
    fn begin_part(&mut self, name: &str) -> bool {
        match name {
            "input" => {
                self.inputs.input.clear();
                self.part = Part::Input;
                true
            }
            "apt" => {
                self.inputs.apt.clear();
                self.part = Part::Apt;
                true
            }
            "stm" => {
                self.inputs.stm.clear();
                self.part = Part::Stm;
                true
            }
            "jrn" => {
                self.inputs.jrn.clear();
                self.part = Part::Jrn;
                true
            }
            "prints" => {
                self.part = Part::Prints;
                true
            }
            "keeps" => {
                self.part = Part::Keeps;
                true
            }
            _ => false,
        }
    }

    /// Reads one more line of the case. Says whether it can be read.
    pub fn read(&mut self, alloc: Global, line: &str) -> Result<bool, Memory> {
        if let Some(bytes) = line.strip_prefix("|") {
            return self.put(bytes);
        }
        if let Some(word) = line.strip_prefix("word ") {
            if self.words.is_empty() {
                self.words.push(String::from_str(alloc, "buckfleet")?)?;
            }
            self.words.push(String::from_str(alloc, word)?)?;
            return Ok(true);
        }
        if let Some(name) = line.strip_prefix("file ") {
            self.begin_file(alloc, name)?;
            return Ok(true);
        }
        if let Some(words) = line.strip_prefix("run ") {
            return match engine_of(words) {
                None => Ok(false),
                Some(engine) => {
                    self.engine = engine;
                    Ok(true)
                }
            };
        }
        if let Some(fault) = line.strip_prefix("says ") {
            return put_line(&mut self.wanted.line, fault);
        }
        if let Some(status) = line.strip_prefix("ends ") {
            return match status.parse::<u8>() {
                Err(_) => Ok(false),
                Ok(status) => {
                    self.wanted.status = status;
                    Ok(true)
                }
            };
        }
        Ok(line.is_empty() || line.starts_with("#") || self.begin_part(line))
    }
}
