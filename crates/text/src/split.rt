// Where the sheet ends on standard input, document 01, 'The bench program'.
ghost use Rattle.std.specs.Prelude.{◌≡◌};
ghost use Rattle.text.specs.Split.{split_at};

// How many bytes of the input are the sheet; what is left is the old plan. The size is worked out only once the header has passed:
// of any word E it could exceed 32 bits.
pub fn split(input: &[u8]) -> usize
    ensures { result ≡ split_at input.now }
{
    let all = input.len();
    let Ok(h) = sheet::read_header(input) else {
        return all;
    };
    let size = 4 * (3 + 2 * h.e as usize);
    size.min(all)
}
