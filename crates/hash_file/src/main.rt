//! Prints the SHA-256 of a file, which it reads in pieces of 65,536 bytes: the least that a write of
//! an image has to do, for the benchmark.
//!
//! Use: `hash_file FILE`. The exit status is 0, or 1 with a line on standard error where no file is
//! named, the words are not UTF-8, the file cannot be read, the digest cannot be printed, or it is out
//! of memory.
#![tactic(auto)]

ghost use Rattle.std.specs.Prelude.{◌<◌, ◌≡◌, length, IfOk, IfSome};
ghost use Rattle.sha2.specs.Sha256.{sha256};

use sha2::{Digest, Sha256};
use std::env;
use std::fs::File;
use std::io::{self, Error, ErrorKind, Read};
use std::process::ExitCode;

/// The bytes that a read asks for.
const PIECE: usize = 65_536;

/// The SHA-256 of all that the reader has left. Where a read fails it answers that error; after 2^64 - 1
/// reads that give something it gives up with `TimedOut`, which no file comes to.
fn digest_of<R: Read>(reader: &mut R, buffer: &mut [u8]) -> io::Result<[u8; 32]>
    requires { 0 < length buffer.old }
    ensures { IfOk result (λ digest. IfSome (R.remaining reader.old) (λ bytes. digest ≡ sha256 bytes)) }
{
    let mut hasher = Sha256::new();
    for _ in 0..u64::MAX {
        let count = reader.read(buffer)?;
        if count == 0 {
            return Ok(hasher.finalize());
        }
        hasher.update(&buffer[..count]);
    }
    Err(Error::from(ErrorKind::TimedOut))
}

// Prints the digest of the file that the words name.
fn print_digest(rt: &HostRuntime) -> io::Result<()> {
    let alloc = rt.alloc();
    let Some(path) = env::args(rt)?.nth(1) else {
        return Err(Error::from(ErrorKind::InvalidInput));
    };
    let mut file = File::open(rt, path.as_str())?;
    let mut buffer = vec![in alloc; 0u8; PIECE]?;
    let digest = digest_of(&mut file, buffer.as_mut_slice())?;
    let text = hex::encode(alloc, digest.as_slice())?;
    println!(rt; "{text}")?;
    Ok(())
}

fn main(rt: HostRuntime) -> ExitCode {
    match print_digest(&rt) {
        Ok(()) => ExitCode::from(0),
        Err(error) => {
            let _ = eprintln!(rt; "hash_file: {error}");
            ExitCode::from(1)
        }
    }
}
