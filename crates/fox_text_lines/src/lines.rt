// A text's first line, what follows it, and how texts are compared.
ghost use Rattle.std.specs.Prelude.{◌≡◌, ◌==◌, drop, position};
ghost use Rattle.fox_text.specs.Ascii.{same, starts_with};
ghost use Rattle.fox_text.specs.Lines.{After, Ends, has_line, line};

// The place of the first line feed.
fn line_feed(t: &[u8]) -> Option<usize>
    ensures { result ≡ position (λ x. x == 10) t.now }
{
    t.iter().position(|x| *x == b'\n')
}

// The place of the first line feed, or the text's length where there is none.
pub fn line_end(t: &[u8]) -> usize
    ensures { Ends t.now result }
{
    line_feed(t).unwrap_or(t.len())
}

pub fn has_line(t: &[u8]) -> bool
    ensures { result ≡ has_line t.now }
{
    line_end(t) < t.len()
}

pub fn first_line(t: &[u8]) -> &[u8]
    ensures { result.now ≡ line t.now }
{
    let end = line_end(t);
    &t[..end]
}

// The text from a place on: nothing where the place is past its end.
pub fn rest(t: &[u8], at: usize) -> &[u8]
    ensures { result.now ≡ drop at t.now }
{
    &t[at.min(t.len())..]
}

pub fn after_line(t: &[u8]) -> &[u8]
    ensures { After t.now result.now }
{
    let end = line_end(t);
    rest(t, end + 1)
}

pub fn starts_with(name: &[u8], t: &[u8]) -> bool
    ensures { result ≡ starts_with name.now t.now }
{
    t.starts_with(name)
}

pub fn same(a: &[u8], b: &[u8]) -> bool
    ensures { result ≡ same a.now b.now }
{
    a == b
}
