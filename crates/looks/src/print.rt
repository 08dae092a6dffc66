// The lines written.

use super::tally::Tally;
use std::io;

pub fn head<R: Print>(rt: &R) -> io::Result<()> {
    println!(rt;
        "postings\tsearches\tfrom the front, most\tall\thalving, most\tall\tplaces that differ"
    )
}

pub fn row<R: Print>(
    rt: &R,
    n: usize,
    searches: u64,
    front: Tally,
    halved: Tally,
    apart: Tally,
) -> io::Result<()> {
    let differ = apart.all;
    println!(rt; "{n}\t{searches}\t{front}\t{halved}\t{differ}")
}
