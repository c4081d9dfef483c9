// Why a page is not loaded: the first question that has the answer "no", and where on the page.
// The numbers of the questions are given, and so is 0 for what stands on no card.
ghost use Rattle.std.specs.Prelude.{◌≡◌, Some};
ghost use Rattle.rules.specs.Faults.{in_chain, in_page, of_matrix, fault_number, fault_card, fault_byte, matrix_byte, chain_number, chain_card, chain_byte, field_offset, record_start, of_status};
ghost use Rattle.rules.specs.Texts.{fault_text};

use crate::refusals::JobRefusal;
use crate::sheet::UnknownStatus;
use matrix::MatrixRefusal;
use std::fmt;

// What is wrong with the job on a card.
#[derive(Clone, Copy)]
pub struct JobFault {
    pub card: u16,
    pub refusal: JobRefusal,
}

// What is wrong with the chain of cards.
#[derive(Clone, Copy)]
pub enum ChainFault {
    // The link that stands on a card, or on card 0 the first link, leads to no card or to one that was met before.
    Link(u16, u16),
    // Something is wrong with a job.
    Job(JobFault),
}

// What is wrong with a page.
#[derive(Clone, Copy)]
pub enum PageFault {
    // It has so many bytes, and not 1,292.
    Size(usize),
    // Its version is not 1.
    Version(u16),
    // Its matrix is refused.
    Matrix(MatrixRefusal),
    // Its status is not 0, 1 or 2.
    Status(u16),
    // Something is wrong with its chain.
    Chain(ChainFault),
    // A byte that belongs to nothing is not zero.
    Stray(usize),
    // Status, rounds or held windows are not those that settling gives.
    Unsettled,
}

impl From<JobFault> for ChainFault {
    ghost from_gives = { λ e r. r ≡ in_chain e };

    fn from(fault: JobFault) -> ChainFault {
        ChainFault::Job(fault)
    }
}

impl From<MatrixRefusal> for PageFault {
    ghost from_gives = { λ e r. r ≡ of_matrix e };

    fn from(refusal: MatrixRefusal) -> PageFault {
        PageFault::Matrix(refusal)
    }
}

impl From<UnknownStatus> for PageFault {
    ghost from_gives = { λ e r. r ≡ of_status e };

    fn from(unknown: UnknownStatus) -> PageFault {
        PageFault::Status(unknown.0)
    }
}

impl From<ChainFault> for PageFault {
    ghost from_gives = { λ e r. r ≡ in_page e };

    fn from(fault: ChainFault) -> PageFault {
        PageFault::Chain(fault)
    }
}

// Where the record of a card begins.
fn record_start(card: u16) -> usize
    ensures { result ≡ record_start card }
{
    524 + 24 * usize::from(card).saturating_sub(1)
}

// Where the field of a record begins that a question is about.
fn field_offset(refusal: JobRefusal) -> usize
    ensures { result ≡ field_offset refusal }
{
    match refusal {
        JobRefusal::Setup(_) => 2,
        JobRefusal::Duration(_) => 4,
        JobRefusal::LateEnd(_) => 12,
        JobRefusal::Room(_) => 8,
    }
}

// Where the field begins that a question about the matrix is about.
fn matrix_byte(refusal: MatrixRefusal) -> usize
    ensures { result ≡ matrix_byte refusal }
{
    let (from, to) = match refusal {
        MatrixRefusal::Setups(_) | MatrixRefusal::Count(_) => return 2,
        MatrixRefusal::TooGreat(entry) => (entry.from, entry.to),
        MatrixRefusal::Triangle(triple) => (triple.from, triple.to),
    };
    12 + 2 * (16 * usize::from(from).saturating_sub(1) + usize::from(to).saturating_sub(1))
}

impl ChainFault {
    // The number of the question.
    pub fn number(&self) -> u8
        ensures { result ≡ chain_number self.now }
    {
        match self {
            ChainFault::Link(_, _) => 15,
            ChainFault::Job(fault) => fault.refusal.number(),
        }
    }

    // The card in whose record the fault is; 0 where it is in none.
    pub fn card(&self) -> u16
        ensures { result ≡ chain_card self.now }
    {
        match self {
            ChainFault::Link(card, _) => *card,
            ChainFault::Job(fault) => fault.card,
        }
    }

    // The first byte of the field.
    pub fn byte(&self) -> usize
        ensures { result ≡ chain_byte self.now }
    {
        match *self {
            ChainFault::Link(0, _) => 4,
            ChainFault::Link(card, _) => record_start(card),
            ChainFault::Job(fault) => record_start(fault.card) + field_offset(fault.refusal),
        }
    }
}

impl PageFault {
    // The number of the question.
    pub fn number(&self) -> u8
        ensures { result ≡ fault_number self.now }
    {
        match self {
            PageFault::Size(_) => 13,
            PageFault::Version(_) => 14,
            PageFault::Matrix(refusal) => refusal.number(),
            PageFault::Status(_) => 17,
            PageFault::Chain(fault) => fault.number(),
            PageFault::Stray(_) => 16,
            PageFault::Unsettled => 18,
        }
    }

    // The card in whose record the fault is; 0 where it is in none.
    pub fn card(&self) -> usize
        ensures { result ≡ fault_card self.now }
    {
        match *self {
            PageFault::Chain(fault) => usize::from(fault.card()),
            PageFault::Stray(byte) => { if byte < 524 { 0 } else { (byte - 524) / 24 + 1 } }
            _ => 0,
        }
    }

    // The first byte of the field.
    pub fn byte(&self) -> usize
        ensures { result ≡ fault_byte self.now }
    {
        match *self {
            PageFault::Size(_) | PageFault::Version(_) => 0,
            PageFault::Matrix(refusal) => matrix_byte(refusal),
            PageFault::Status(_) | PageFault::Unsettled => 6,
            PageFault::Chain(fault) => fault.byte(),
            PageFault::Stray(byte) => byte,
        }
    }
}

// Number, card and byte.
impl fmt::Display for PageFault {
    ghost output = { λ fault. Some (fault_text fault) };

    fn fmt<W: fmt::Write>(&self, f: &mut fmt::Formatter<W>) -> fmt::Result {
        let number = self.number();
        let card = self.card();
        let byte = self.byte();
        write!(f, "{number} {card} {byte}")
    }
}
