//! Files that are read by name, in pieces, and the reading of one whole.
ghost use Rattle.std.specs.Prelude.{◌≡◌, ℕ, ◌<◌, ◌≤◌, ◌+◌, ◌⊎◌, ◌++◌, Bool, IsTrue, List, [], Option, option_map, is_some, length, take, vec_len, IfOk, IfSome, IsErrOf, IsOk, OnErr, OnOk};
ghost use Rattle.asl_io.specs.Faults.{Rises};
ghost use Rattle.asl_io.specs.Told.{Gives, GivesMany};

use std::alloc::{AllocError, Global};

/// The file could not be opened or read.
#[derive(Clone, Copy, Debug, PartialEq, Eq)]
pub struct FileFault;

/// Files by name, one open at a time.
pub trait Files {
    /// The bytes of each name, where this kind of files tells them.
    ghost held: { Self → Option (List ℕ → List ℕ) };

    /// The bytes of the open file that have not been given yet: none where no file is open. After a fault nothing is known
    /// of them.
    ghost left: { Self → Option (List ℕ) };

    /// How many calls have failed.
    ghost faults: { Self → ℕ };

    /// From here on `next` succeeds.
    ghost steady: { Self → Bool };

    /// Opening this name succeeds, and then reading it does.
    ghost sure: { Self → List ℕ → Bool };

    /// Opens a file, and closes the one that was open.
    fn open(&mut self, name: &str) -> Result<(), FileFault>
        ensures begins { OnOk result (left self.new ≡ option_map (λ bytes. bytes name.now) (held self.old)) }
        ensures same_held { held self.new ≡ held self.old }
        ensures same_sure { sure self.new ≡ sure self.old }
        ensures count_grows { faults self.old ≤ faults self.new }
        ensures count_rises { OnErr result (Rises (faults self.old) (faults self.new)) }
        ensures count_stays { OnOk result (faults self.new ≡ faults self.old) }
        ensures opens { IsTrue (sure self.old name.now) → IsOk result }
        ensures steady { IsTrue (sure self.old name.now) → IsTrue (steady self.new) };

    /// Copies the next bytes of the open file to the front of `buf`, and returns how many: 0 only at the end of the file,
    /// where no file is open, or where `buf` is empty.
    fn next(&mut self, buf: &mut [u8]) -> Result<usize, FileFault>
        ensures bound { IfOk result (λ n. n ≤ length buf.new) }
        ensures gives { IfOk result (λ n. Gives (left self.old) (left self.new) (take n buf.new)) }
        ensures end { IfOk result (λ n. n ≡ 0 → 0 < length buf.new → IfSome (left self.old) (λ bytes. bytes ≡ [])) }
        ensures at_end { IfOk result (λ n. left self.old ≡ Some [] → n ≡ 0) }
        ensures same_held { held self.new ≡ held self.old }
        ensures same_sure { sure self.new ≡ sure self.old }
        ensures count_grows { faults self.old ≤ faults self.new }
        ensures count_rises { OnErr result (Rises (faults self.old) (faults self.new)) }
        ensures count_stays { OnOk result (faults self.new ≡ faults self.old) }
        ensures goes_on { IsTrue (steady self.old) → IsOk result }
        ensures stays_steady { IsTrue (steady self.old) → IsTrue (steady self.new) };

    /// What is left of the open file is told exactly where the bytes of the names are.
    ghost told: { (f : Self) → is_some (left f) ≡ is_some (held f) };
}

/// Why a file was not read.
#[derive(Clone, Copy, Debug, PartialEq, Eq)]
pub enum ReadAnswer {
    /// A call of the files failed.
    Fault,
    /// The file is longer than the limit.
    TooLong,
    /// No memory was left.
    NoMemory,
}

impl From<AllocError> for ReadAnswer {
    ghost use Rattle.asl_io.specs.declared.files.ReadAnswer.{ReadAnswer};

    ghost from_gives = { λ _ e. e ≡ ReadAnswer.NoMemory };

    fn from(_error: AllocError) -> ReadAnswer {
        ReadAnswer::NoMemory
    }
}

impl From<FileFault> for ReadAnswer {
    ghost use Rattle.asl_io.specs.declared.files.ReadAnswer.{ReadAnswer};

    ghost from_gives = { λ _ e. e ≡ ReadAnswer.Fault };

    fn from(_fault: FileFault) -> ReadAnswer {
        ReadAnswer::Fault
    }
}

// How many bytes `read_file` asks for at a time.
const PIECE: usize = 4096;

/// Appends one more piece of the open file to `bytes`, of at most `most` bytes, and returns how long it was.
fn take_piece<F: Files>(
    files: &mut F,
    bytes: &mut Vec<u8>,
    most: usize,
) -> Result<usize, ReadAnswer>
    requires { 0 < most }
    ensures bound { IfOk result (λ n. n ≤ most) }
    ensures grows { IfOk result (λ n. vec_len bytes.new ≡ vec_len bytes.old + n) }
    ensures gives { OnOk result ((piece : List ℕ) × (bytes.new.items ≡ bytes.old.items ++ piece) × Gives (F.left files.old) (F.left files.new) piece) }
    ensures end { IfOk result (λ n. n ≡ 0 → IfSome (F.left files.old) (λ rest. rest ≡ [])) }
    ensures same_held { F.held files.new ≡ F.held files.old }
    ensures same_sure { F.sure files.new ≡ F.sure files.old }
    ensures count_grows { F.faults files.old ≤ F.faults files.new }
    ensures count_rises { IsErrOf result ReadAnswer.Fault → Rises (F.faults files.old) (F.faults files.new) }
    ensures count_stays { OnOk result (F.faults files.new ≡ F.faults files.old) }
    ensures count_stays_at_other { IsErrOf result ReadAnswer.NoMemory → F.faults files.new ≡ F.faults files.old }
    ensures lost { IsErrOf result ReadAnswer.NoMemory → (n : ℕ) × (n ≤ most) × GivesMany (F.left files.old) (F.left files.new) n }
    ensures not_too_long { IsErrOf result ReadAnswer.TooLong → ⊥ }
    ensures goes_on { IsTrue (F.steady files.old) → IsErrOf result ReadAnswer.Fault → ⊥ }
    ensures stays_steady { IsTrue (F.steady files.old) → IsTrue (F.steady files.new) }
{
    let mut buf = [0u8; PIECE];
    let room = most.min(PIECE);
    let n = files.next(&mut buf[..room])?;
    bytes.extend_from_slice(&buf[..n])?;
    Ok(n)
}

/// Reads a whole file that has at most `limit` bytes: `TooLong` where it has more, `Fault` where a call of the files
/// fails. It takes at most one byte more than the limit.
pub fn read_file<F: Files>(
    alloc: Global,
    files: &mut F,
    name: &str,
    limit: usize,
) -> Result<Vec<u8>, ReadAnswer>
    requires { limit < usize.MAX }
    ensures whole { IfOk result (λ bytes. IfSome (F.held files.old) (λ held. bytes.items ≡ held name.now)) }
    ensures short { IfOk result (λ bytes. vec_len bytes ≤ limit) }
    ensures to_the_end { OnOk result (IfSome (F.left files.new) (λ rest. rest ≡ [])) }

    // Where it is too long, one byte more than the limit has been read.
    ensures too_long { IsErrOf result ReadAnswer.TooLong → IfSome (F.held files.old) (λ held. limit < length (held name.now)) }
    ensures one_more { IsErrOf result ReadAnswer.TooLong → GivesMany (option_map (λ held. held name.now) (F.held files.old)) (F.left files.new) (limit + 1) }

    // Whatever it answers, it takes no more; after a fault the files tell nothing of what is left.
    ensures at_most { IsErrOf result ReadAnswer.Fault ⊎ ((n : ℕ) × (n ≤ limit + 1) × GivesMany (option_map (λ held. held name.now) (F.held files.old)) (F.left files.new) n) }

    ensures same_held { F.held files.new ≡ F.held files.old }
    ensures same_sure { F.sure files.new ≡ F.sure files.old }
    ensures count_grows { F.faults files.old ≤ F.faults files.new }
    ensures count_rises { IsErrOf result ReadAnswer.Fault → Rises (F.faults files.old) (F.faults files.new) }
    ensures count_stays { F.faults files.new ≡ F.faults files.old ⊎ IsErrOf result ReadAnswer.Fault }
    ensures sure { IsTrue (F.sure files.old name.now) → IsErrOf result ReadAnswer.Fault → ⊥ }
{
    files.open(name)?;
    let mut bytes = Vec::new(alloc);
    while bytes.len() <= limit {
        let most = limit + 1 - bytes.len();
        let n = take_piece(files, &mut bytes, most)?;
        if n == 0 {
            return Ok(bytes);
        }
    }
    Err(ReadAnswer::TooLong)
}
