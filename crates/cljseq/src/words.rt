//! The words of the command line.
ghost use Rattle.std.specs.Prelude.{◌≡◌};

use seq_run::Status;
use std::alloc::Global;
use std::env;
use std::env::FillError;
use std::io::ErrorKind;
use std::rt::Env;

/// Why there are no words.
#[derive(Clone, Copy, Debug, PartialEq, Eq)]
pub enum WordsStop {
    /// One of them isn't UTF-8.
    NotText,
    /// Memory ran out.
    Memory,
}

impl WordsStop {
    /// The status of a run that has no words.
    pub fn status(self) -> Status
        ensures faulty { self ≡ WordsStop.NotText → result ≡ Status.Usage }
        ensures memory { self ≡ WordsStop.Memory → result ≡ Status.NoMemory }
    {
        match self {
            WordsStop::NotText => Status::Usage,
            WordsStop::Memory => Status::NoMemory,
        }
    }
}

/// A command line whose first word, the program's name, counts as empty.
#[derive(Drop)]
struct Unnamed<'a, R> {
    rt: &'a R,
}

impl<R: Env> Env for Unnamed<'_, R> {
    fn arg(&self, i: usize, buf: &mut [u8]) -> Result<usize, FillError> {
        if i == 0 {
            return Ok(0);
        }
        self.rt.arg(i, buf)
    }

    fn var(&self, name: &str, buf: &mut [u8]) -> Result<usize, FillError> {
        self.rt.var(name, buf)
    }

    fn var_at(&self, i: usize, buf: &mut [u8]) -> Result<usize, FillError> {
        self.rt.var_at(i, buf)
    }
}

/// The words of the command line. The first one, the program's name, isn't looked at: an empty word stands for it.
pub fn words_of<R: Env>(rt: &R, alloc: Global) -> Result<Vec<String>, WordsStop> {
    match env::args(&(Unnamed { rt }, alloc)) {
        Ok(words) => match words.collect::<Vec<String>>(alloc) {
            Ok(words) => Ok(words),
            Err(_) => Err(WordsStop::Memory),
        },
        Err(error) if error.kind() == ErrorKind::OutOfMemory => Err(WordsStop::Memory),
        Err(_) => Err(WordsStop::NotText),
    }
}
