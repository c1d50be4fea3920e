// Where the table's text ends in an input.
ghost use Rattle.std.specs.Prelude.{◌≡◌};
ghost use Rattle.session_query.specs.Parts.{table_size};

// The place after the first line that begins with 05, the end where there is none.
pub fn table_end(text: &[u8]) -> usize
    ensures { result ≡ table_size text.now }
{
    let mut end = 0;
    for line in text.split_inclusive(|c| *c == b'\n') {
        end += line.len();
        if line.starts_with(b"05") {
            break;
        }
    }
    end
}
