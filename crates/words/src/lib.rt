// 32-bit words in byte slices, low byte first: one word, and a run of words, read and written.
#![tactic(auto)]

ghost use Rattle.std.specs.Prelude.{◌≡◌, ℕ, [], ◌∷◌, ◌+◌, ◌*◌, ◌≤◌, length, get_or, take};
ghost use Rattle.std.proofs.lemmas.List.Edits.{sets};
ghost use Rattle.words.specs.Words.{word, put_word, words, encode, part};
ghost use Rattle.words.specs.Buffer.{placed};
ghost use Rattle.words.specs.Answer.{answer_of};
ghost use Rattle.arrays.specs.Arrays.{padded};

pub mod lists;

// Why a record is not written: the lent buffer is too short for it.
#[derive(Clone, Copy)]
pub struct TooShort;

// Why an operation refuses what it is called with. The papers number the reasons.
pub trait Refusal: Drop {
    // the paper's number of each reason
    ghost number_of: { Self → ℕ };

    fn number(self) -> u32
        ensures { result ≡ number_of self };
}

// The answer in the papers' numbers of an operation that writes one record: 0 or the refusal's, and the record's length in bytes, 0 in a
// refusal.
#[repr(C)]
#[derive(Drop)]
pub struct WrittenAnswer {
    pub refusal: u32,
    pub bytes: u32,
}

// The length of a record that was written, or why it was not, in the papers' numbers.
pub fn answer<R: Refusal>(written: Result<u32, R>) -> WrittenAnswer
    ensures { result ≡ answer_of R.number_of written }
{
    match written {
        Ok(bytes) => WrittenAnswer { refusal: 0, bytes },
        Err(r) => WrittenAnswer {
            refusal: r.number(),
            bytes: 0,
        },
    }
}

// Word number k of s.
pub fn word_number(s: &[u8], k: usize) -> u32
    requires { 4 * k + 4 ≤ length s.now }
    ensures { result ≡ get_or (words s.now) k 0 }
{
    let (chunks, _) = s.as_chunks::<4>();
    u32::from_le_bytes(chunks[k])
}

// Fills out with the words of s from number first on.
pub fn get_words(s: &[u8], first: usize, out: &mut [u32])
    requires { 4 * (first + length out.old) ≤ length s.now }
    ensures { out.new ≡ part first (length out.old) (words s.now) }
{
    for (i, word) in out.iter_mut().enumerate() {
        *word = word_number(s, first + i);
    }
}

// The k words of s from number first on, and zeros behind them.
pub fn words_64(s: &[u8], first: usize, k: usize) -> [u32; 64]
    requires { (4 * (first + k) ≤ length s.now) × (k ≤ 64) }
    ensures { result ≡ padded (part first k (words s.now)) }
{
    let mut out = [0; 64];
    get_words(s, first, &mut out[..k]);
    out
}

// Writes w as word number k of out.
pub fn put_word(out: &mut [u8], k: usize, w: u32)
    requires { 4 * k + 4 ≤ length out.old }
    ensures { out.new ≡ put_word out.old (4 * k) w }
{
    let i = 4 * k;
    out[i..i + 4].copy_from_slice(&w.to_le_bytes());
}

// Writes the three words of a record's head.
pub fn put_head(out: &mut [u8], a: u32, b: u32, c: u32)
    requires { 12 ≤ length out.old }
    ensures { out.new ≡ sets out.old 0 (encode (a ∷ b ∷ c ∷ [])) }
{
    put_word(out, 0, a);
    put_word(out, 1, b);
    put_word(out, 2, c);
}

// Writes ws as the words of out from number first on.
pub fn put_words(out: &mut [u8], first: usize, ws: &[u32])
    requires { 4 * (first + length ws.now) ≤ length out.old }
    ensures { out.new ≡ sets out.old (4 * first) (encode ws.now) }
{
    for (i, w) in ws.iter().enumerate() {
        put_word(out, first + i, *w);
    }
}
