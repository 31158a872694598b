//! What can be refused or fail, and the words for it.

ghost use Rattle.std.specs.Prelude.{◌≡◌, ◌≢◌};
ghost use Rattle.request_files.specs.Answers.{verify_fault_words};
ghost use Rattle.yilthen.specs.Errors.{OfStore};

use acee::VerifyFault;
use desk_rules::Refusal;
use racf_checkpoint::StoreFault;
use std::alloc::Global;
use std::fmt;

/// What can be refused or fail. It is shown in the words of docs/GUIDE.md.
#[derive(Debug, Drop)]
pub enum Error {
    /// A command was refused, and changed nothing.
    Refused(Refused),
    /// A disk failed an earlier command, and the desk takes no more.
    Halted,
    /// A disk failed this call. What it was to put there may stand on the disks or not: open them again.
    DiskFault,
    /// The disks hold no database.
    NotFormatted,
    /// What the disk that counts has from this place on can't be read.
    Damaged(u64),
    /// The user isn't verified.
    NotVerified(VerifyFault),
    /// Memory was wanting, and nothing has changed.
    NoMemory,
}

/// A command that was refused. It is shown by why.
#[derive(Drop)]
pub struct Refused {
    /// How many commands were accepted so far.
    pub number: u64,
    /// Why.
    pub refusal: Refusal,
    /// Where its words take their memory.
    pub(crate) alloc: Global,
}

impl Error {
    /// A fault of a store, none of whose files is full.
    pub(crate) fn of_store(fault: StoreFault) -> Error
        requires { fault ≢ StoreFault.Full }
        ensures { OfStore result (λ why. why ≡ fault) }
    {
        match fault {
            StoreFault::DiskFault => Error::DiskFault,
            StoreFault::NotFormatted => Error::NotFormatted,
            StoreFault::Damaged(place) => Error::Damaged(place),
            StoreFault::Full => unreachable!(),
            StoreFault::NoMemory => Error::NoMemory,
        }
    }
}

impl fmt::Display for Error {
    ghost use Rattle.std.specs.Prelude.{Some};
    ghost use Rattle.yilthen.specs.Errors.{error_words};

    ghost output = { λ error. Some (error_words error) };

    fn fmt<W: fmt::Write>(&self, f: &mut fmt::Formatter<W>) -> fmt::Result {
        match self {
            Error::Refused(refused) => {
                f.write_str("REFUSED ")?;
                refused.write(f)
            }
            Error::Halted => f.write_str("HALTED"),
            Error::DiskFault => f.write_str("DISK FAULT"),
            Error::NotFormatted => f.write_str("NOT FORMATTED"),
            Error::Damaged(place) => write!(f, "DAMAGED AT {place}"),
            Error::NotVerified(fault) => f.write_str(verify_words(*fault)),
            Error::NoMemory => f.write_str("NO MEMORY"),
        }
    }
}

impl std::error::Error for Error {}

/// The return code of a VERIFY that fails, and its word; none for want of memory, which is an error of its own.
fn verify_words(fault: VerifyFault) -> &'static str
    ensures { result.now ≡ verify_fault_words fault }
{
    match fault {
        VerifyFault::NotDefined => "4 NOTDEFINED",
        VerifyFault::NotConnected => "20 NOTCONNECTED",
        VerifyFault::Revoked => "28 REVOKED",
        VerifyFault::ConnectRevoked => "36 CONNECTREVOKED",
        VerifyFault::Port => "48 PORT",
        VerifyFault::Application => "52 APPL",
        VerifyFault::Label => "56 LABEL",
        VerifyFault::NoMemory => "",
    }
}

impl Refused {
    ghost use Rattle.std.specs.Prelude.{Some};
    ghost use Rattle.std.specs.Fmt.{DisplaysOnOk};
    ghost use Rattle.desk_rules.specs.Words.{refusal_words};

    /// Writes why.
    fn write<W: fmt::Write>(&self, f: &mut fmt::Formatter<W>) -> fmt::Result
        ensures { DisplaysOnOk W.write_str_gives f.old result (Some (refusal_words self.now.refusal)) f.new }
    {
        let mut words = Vec::new(self.alloc);
        self.refusal.write(&mut words)?;
        match std::str::from_utf8(words.as_slice()) {
            Ok(text) => f.write_str(text),
            Err(_) => Err(fmt::Error),
        }
    }
}

impl fmt::Display for Refused {
    ghost use Rattle.std.specs.Prelude.{Some};
    ghost use Rattle.desk_rules.specs.Words.{refusal_words};

    ghost output = { λ refused. Some (refusal_words refused.refusal) };

    fn fmt<W: fmt::Write>(&self, f: &mut fmt::Formatter<W>) -> fmt::Result {
        self.write(f)
    }
}

impl fmt::Debug for Refused {
    fn fmt<W: fmt::Write>(&self, f: &mut fmt::Formatter<W>) -> fmt::Result {
        self.write(f)
    }
}
