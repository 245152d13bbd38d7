// A description by its words, numbers of 64 bits, and the job that they say. A word past the last is 0.

#![tactic(auto)]

ghost use Rattle.std.specs.Prelude.{length, get_or, ◌≡◌, ◌+◌, ◌≤◌};
ghost use Rattle.words.specs.Words.{words_length, places_from, words_header, written_words, WordsTrips};
ghost use Rattle.writer.specs.Writing.{written_number};

use rules::answers::Refusal;
use rules::job::Header;

pub mod bytes;

// Where each array begins among the words.
const SOLIDS_AT: usize = 12;

const WATER_AT: usize = 140;

const STRESS_AT: usize = 268;

const VOID_AT: usize = 332;

const CONDUCTIVITY_VOID_AT: usize = 396;

const CONDUCTIVITY_AT: usize = 460;

const TABLE_TIME_AT: usize = 524;

const TABLE_LOAD_AT: usize = 588;

// Word i.
pub fn word(words: &[u64], i: usize) -> u64
    ensures { result ≡ get_or words.now i 0 }
{
    if i < words.len() { words[i] } else { 0 }
}

// The header of words 0 to 11.
#[tactic(auto, unfolding(crate::specs::Words::words_header))]
pub fn read_header(words: &[u64]) -> Header
    ensures { result ≡ words_header words.now }
{
    Header {
        top: word(words, 0),
        bottom: word(words, 1),
        elements: word(words, 2) as usize,
        compressibility_points: word(words, 3) as usize,
        conductivity_points: word(words, 4) as usize,
        table_points: word(words, 5) as usize,
        start: word(words, 6),
        gravity: word(words, 7),
        top_level: word(words, 8),
        bottom_level: word(words, 9),
        end: word(words, 10),
        budget: word(words, 11),
    }
}

// Puts the words from a place on in all places of an array.
pub fn read_places(words: &[u64], at: usize, numbers: &mut [u64])
    requires { at + length numbers.old ≤ words_length }
    ensures { numbers.new ≡ places_from at (length numbers.old) words.now }
{
    for i in 0..numbers.len() {
        numbers[i] = word(words, at + i);
    }
}

// An answer of the writer as one number.
#[tactic(auto, unfolding(writer::specs::Writing::written_number))]
pub fn written_number(written: Result<usize, Refusal>) -> u64
    ensures { result ≡ written_number written }
{
    match written {
        Ok(length) => length as u64,
        Err(cause) => answers::refusal_number(cause),
    }
}

// Writes the job of a description at the beginning of a buffer and gives its length, or leaves the buffer and gives the number of the
// refusal.
pub fn write_words(words: &[u64], job: &mut [u8]) -> u64
    ensures value { result ≡ (written_words words.now job.old).number }
    ensures job_after { job.new ≡ (written_words words.now job.old).buffer }
    ensures words_trips { WordsTrips words.now job.old result job.new }
{
    let header = read_header(words);
    let mut void = [0; 64];
    let mut stress = [0; 64];
    let mut conductivity_void = [0; 64];
    let mut conductivity = [0; 64];
    let mut solids = [0; 128];
    let mut water = [0; 128];
    let mut table_time = [0; 64];
    let mut table_load = [0; 64];
    read_places(words, VOID_AT, &mut void);
    read_places(words, STRESS_AT, &mut stress);
    read_places(words, CONDUCTIVITY_VOID_AT, &mut conductivity_void);
    read_places(words, CONDUCTIVITY_AT, &mut conductivity);
    read_places(words, SOLIDS_AT, &mut solids);
    read_places(words, WATER_AT, &mut water);
    read_places(words, TABLE_TIME_AT, &mut table_time);
    read_places(words, TABLE_LOAD_AT, &mut table_load);
    let written = writer::write_job(
        header,
        &void,
        &stress,
        &conductivity_void,
        &conductivity,
        &solids,
        &water,
        &table_time,
        &table_load,
        job,
    );
    written_number(written)
}
