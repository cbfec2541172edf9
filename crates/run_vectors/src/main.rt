// Runs known vectors: FNV-1a 64 as in Noll's list, SplitMix64 for the seeds 1234567 and 0, and the inverse of S on its
// outputs. The file stdout holds the values, and what is printed is compared with it. They were written down without a copy of the sources
// at hand and agree with an independent computation.
#![tactic(auto)]

use std::fmt::Display;
use std::{fmt, io};

// A number that is printed in hexadecimal, with all of its digits.
#[derive(Clone, Copy)]
struct Hex(u64);

impl From<u64> for Hex {
    fn from(n: u64) -> Hex {
        Hex(n)
    }
}

impl Display for Hex {
    fn fmt<W: fmt::Write>(&self, f: &mut fmt::Formatter<W>) -> fmt::Result {
        write!(f, "{:016x}", self.0)
    }
}

fn fnv(rt: &HostRuntime, cases: &[&str]) -> io::Result<()> {
    for s in cases {
        println!(rt; "{} FNV-1a 64 of \"{s}\"", Hex(hash::fnv(s.as_bytes())))?;
    }
    Ok(())
}

// The outputs of SplitMix64 from the seed on, and the inverse of each published one; T says how numbers are printed.
fn outputs<T: Display + From<u64> + Drop>(
    rt: &HostRuntime,
    seed: u64,
    published: &[u64],
) -> io::Result<()> {
    let mut n = seed;
    for p in published {
        println!(rt; "{} S of {}", T::from(hash::mix(n)), T::from(n))?;
        println!(rt; "{} inverse of {}", T::from(hash::unmix(*p)), T::from(*p))?;
        n = std::num::wrapping_add_u64(n, 0x9e37_79b9_7f4a_7c15);
    }
    Ok(())
}

fn main(rt: HostRuntime) -> io::Result<()> {
    fnv(&rt, &["", "a", "b", "c", "d", "e", "f"])?;
    fnv(&rt, &["fo", "foo", "foob", "fooba", "foobar"])?;
    fnv(
        &rt,
        &[
            "ch",
            "cho",
            "chon",
            "chong",
            "chongo",
            "chongo ",
            "chongo was here!",
            "chongo was here!\n",
        ],
    )?;
    outputs::<u64>(
        &rt,
        1234567,
        &[
            6457827717110365317,
            3203168211198807973,
            9817491932198370423,
            4593380528125082431,
            16408922859458223821,
        ],
    )?;
    outputs::<Hex>(
        &rt,
        0,
        &[
            0xe220_a839_7b1d_cdaf,
            0x6e78_9e6a_a1b9_65f4,
            0x06c4_5d18_8009_454f,
            0xf88b_b8a8_724c_81ec,
            0x1b39_896a_51a8_749b,
        ],
    )
}
