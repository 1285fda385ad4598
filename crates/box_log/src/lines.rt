// The lines that answer the records.
#![tactic(auto, using(crate::proofs::LinesCode::laws))]

ghost use Rattle.std.specs.Prelude.{◌≡◌, [], ◌∷◌, ◌+◌, ◌≤◌, length};
ghost use Rattle.std.proofs.lemmas.List.Edits.{sets};
ghost use Rattle.box_log.specs.Answers.{field, line_put, line_end, header_put, header_end};

fn put_text(out: &mut [u8], at: usize, text: &[u8]) -> usize
    requires { at + length text.now ≤ length out.old }
    ensures out_after { out.new ≡ sets out.old at text.now }
    ensures value { result ≡ at + length text.now }
{
    let end = at + text.len();
    out[at..end].copy_from_slice(text);
    end
}

// A number and the byte behind it.
fn put_field(out: &mut [u8], at: usize, n: u64, end: u8) -> usize
    requires { at + 21 ≤ length out.old }
    ensures out_after { out.new ≡ sets out.old at (field n end) }
    ensures value { result ≡ at + length (field n end) }
    ensures upper_bound { result ≤ at + 21 }
{
    let mut digits = itoa::Buffer::new();
    let k = put_text(out, at, digits.format(n).as_bytes());
    put_text(out, k, &[end])
}

// The line goes into the buffer from a place on, where 64 bytes are left there; the answer is the place behind it.
pub fn put_line(out: &mut [u8], at: usize, line: u64, refusal: u64, offset: u64) -> usize
    ensures out_after { out.new ≡ line_put out.old at line refusal offset }
    ensures value { result ≡ line_end out.old at line refusal offset }
{
    if at > out.len() || out.len() - at < 64 {
        return at;
    }
    let a = put_field(out, at, line, b',');
    let b = put_field(out, a, refusal, b',');
    let c = put_field(out, b, offset, b'\r');
    put_text(out, c, b"\n")
}

// The header goes to the buffer's start, where 64 bytes are there; the answer is the place behind it.
pub fn put_header(out: &mut [u8]) -> usize
    ensures out_after { out.new ≡ header_put out.old }
    ensures value { result ≡ header_end out.old }
{
    if out.len() < 64 {
        return 0;
    }
    put_text(out, 0, b"line,refusal,offset\r\n")
}
