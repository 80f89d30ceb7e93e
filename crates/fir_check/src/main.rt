//! `check`: reads an image from standard input and prints what the checker says of it.
#![tactic(auto)]

ghost use Rattle.std.specs.Prelude.{◌≤◌, length};
ghost use Rattle.fir_check.specs.Inputs.{Fits, Reads};

use checker::report;
use std::io::{Read, Write};

/// One byte more than an image may have, so that a longer input is refused by question 1.
const ROOM: usize = 32769;

/// Places for the text: it has at most 64 lines of 17 bytes and one of 12, or one of 20.
const TEXT: usize = 4096;

/// How many reads of an image may fail.
const FAILURES: usize = 1000;

/// How often more input is read at most.
const READS: usize = 18446744073709551615;

/// Standard input as it was read: whole, or as much of it as there is room for, with so many bytes; or it cannot be read.
#[derive(Clone, Copy)]
enum Input {
    Whole(usize),
    Failed,
}

/// Where `space` is full with the `n` bytes read, reads standard input to its end by way of it, so that whoever writes can end.
fn read_on<R: Read>(input: &mut R, n: usize, space: &mut [u8]) {
    if n < space.len() {
        return;
    }
    for _ in 0..READS {
        match read_to_end(input, 0, space) {
            Input::Whole(more) if more > 0 => {}
            _ => return,
        }
    }
}

/// Reads on behind the `n` bytes that `image` holds, until it is full or the input has ended. A read that fails, as one that a
/// signal interrupts, is tried again, but not without end.
#[tactic(auto, unfolding(crate::specs::Inputs::Fits, crate::specs::Inputs::Reads))]
fn read_to_end<R: Read>(input: &mut R, n: usize, image: &mut [u8]) -> Input
    requires { n ≤ length image.old }
    ensures fits { Fits result (length image.new) }
    ensures reads { Reads result n image.old image.new (R.remaining input.old) (R.remaining input.new) }
{
    let mut held = n;
    let mut failures: usize = 0;
    while held < image.len() {
        match input.read(&mut image[held..]) {
            Ok(0) => return Input::Whole(held),
            Ok(got) => held += got,
            Err(_) => {
                if failures == FAILURES {
                    return Input::Failed;
                }
                failures += 1;
            }
        }
    }
    Input::Whole(held)
}

fn main(rt: HostRuntime) {
    let mut image = [0u8; ROOM];
    let mut input = rt.stdin();
    let Input::Whole(n) = read_to_end(&mut input, 0, &mut image) else {
        let _ = rt
            .stderr()
            .write_all(b"check: standard input cannot be read\n");
        return;
    };
    let mut text = [0u8; TEXT];
    match report::report(&image[..n], &mut text) {
        Some(size) => {
            read_on(&mut input, n, &mut image);
            if rt.stdout().write_all(&text[..size]).is_err() {
                let _ = rt
                    .stderr()
                    .write_all(b"check: standard output cannot be written\n");
            }
        }
        None => {}
    }
}
