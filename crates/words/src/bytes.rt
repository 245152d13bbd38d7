// Words as bytes, eight each, lowest first. Where words are read, bytes past the last count as 0.
ghost use Rattle.std.specs.Prelude.{length, ◌≡◌, ◌*◌, ◌≤◌, min};
ghost use Rattle.numbers.specs.Arrays.{overlaid};
ghost use Rattle.numbers.specs.Bytes.{field};
ghost use Rattle.rules.specs.Program.{input_most};
ghost use Rattle.words.specs.Words.{words_in, bytes_of};

// The most bytes of a job that are read.
pub const JOB_MOST: usize = 8_192;

// The word at an offset.
pub fn word_at(bytes: &[u8], offset: usize) -> u64
    ensures { result ≡ field 8 offset bytes.now }
{
    if bytes.len() <= offset {
        return 0;
    }
    let left = bytes.len() - offset;
    if left < 8 {
        return encoding::field(bytes, left, offset);
    }
    encoding::field(bytes, 8, offset)
}

// How many bytes of a job are to be read: the number in a head, at most the most.
pub fn job_length(head: &[u8]) -> usize
    ensures { result ≡ min (field 8 0 head.now) input_most }
{
    word_at(head, 0).min(JOB_MOST as u64) as usize
}

// Puts words, one after the other, in all places of an array.
pub fn read_words(bytes: &[u8], words: &mut [u64])
    ensures { words.new ≡ words_in (length words.old) bytes.now }
{
    for i in 0..words.len() {
        words[i] = word_at(bytes, 8 * i);
    }
}

// Stores all words of an array, one after the other, at the start of a buffer.
pub fn put_words(words: &[u64], out: &mut [u8])
    requires { 8 * length words.now ≤ length out.old }
    ensures { out.new ≡ overlaid (bytes_of words.now) out.old }
{
    for i in 0..words.len() {
        encoding::put_word(out, 8 * i, words[i]);
    }
}
