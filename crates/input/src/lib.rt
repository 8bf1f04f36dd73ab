// Input handed out line by line, in bounded memory however long it is. The caller lends a buffer and keeps a window on it, which says what
// of the buffer was read and not yet handed out. A line that is too long is told once, with the bytes that it begins with, and its rest is
// passed over. Nothing can be said of what is read, but that nothing of it is lost or made up.
#![tactic(auto)]

ghost use Rattle.std.specs.Prelude.{◌≡◌, ◌≤◌, ◌<◌, length, slice_index, EachIndex};
ghost use Rattle.input.specs.Cut.{nothing_read, Fine, emptied_of, whole_of, part_of, cut_of};
ghost use Rattle.input.specs.Reading.{Filled, Handed};

use lines::LINE_LIMIT;
use std::io::Read;

// Two lines of the greatest length: where a line is cut off by the buffer's end, there is room to read its rest.
pub const BUFFER_SIZE: usize = 131072;

// What stands in the buffer from `from` up to `to` was read and not handed out. `ended`: there is no more to read. `passing`: what comes
// next is the rest of a line that was told as too long.
#[derive(Debug, Clone, Copy, PartialEq, Eq)]
pub struct Window {
    pub from: usize,
    pub to: usize,
    pub ended: bool,
    pub passing: bool,
}

// What a step hands out. A line is what stands in the buffer from `start` up to `end`; of one that is too long it is a part.
#[derive(Debug, Clone, Copy, PartialEq, Eq)]
pub enum Step {
    Line {
        start: usize,
        end: usize,
        next: Window,
    },
    TooLong {
        start: usize,
        end: usize,
        next: Window,
    },
    More(Window),
    End,
}

// Before anything was read.
pub fn fresh() -> Window
    ensures { result ≡ nothing_read }
{
    Window {
        from: 0,
        to: 0,
        ended: false,
        passing: false,
    }
}

// A buffer to be lent, all zeros.
pub fn buffer() -> [u8; BUFFER_SIZE]
    ensures { EachIndex result (λ k. slice_index result k ≡ 0) }
{
    [0u8; BUFFER_SIZE]
}

impl Window {
    // All of the window is handed out or passed over.
    fn emptied(self, passing: bool) -> Window
        ensures { result ≡ emptied_of self passing }
    {
        Window {
            from: self.to,
            passing,
            ..self
        }
    }

    // The step where a newline stands at `end`.
    #[tactic(auto, using(std::proofs::lemmas::Bool::Decides::nat_tests), unfolding(crate::specs::Cut::whole_of))]
    fn whole(self, end: usize) -> Step
        requires { (self.from ≤ end) × (end < self.to) }
        ensures { result ≡ whole_of self end }
    {
        let start = self.from;
        let next = Window {
            from: end + 1,
            passing: false,
            ..self
        };
        if self.passing {
            Step::More(next)
        } else if end - start <= LINE_LIMIT {
            Step::Line { start, end, next }
        } else {
            Step::TooLong { start, end, next }
        }
    }

    // The step where there is no newline: the line may go on, unless the input has ended or it is too long already.
    #[tactic(auto, using(std::proofs::lemmas::Bool::Decides::nat_tests), unfolding(crate::specs::Cut::part_of))]
    fn partial(self) -> Step
        requires { self.from ≤ self.to }
        ensures { result ≡ part_of self }
    {
        match (self.passing, self.ended) {
            (true, true) => Step::End,
            (true, false) => Step::More(self.emptied(true)),
            (false, _) if LINE_LIMIT < self.to - self.from => Step::TooLong {
                start: self.from,
                end: self.to,
                next: self.emptied(true),
            },
            (false, true) if self.from == self.to => Step::End,
            (false, true) => Step::Line {
                start: self.from,
                end: self.to,
                next: self.emptied(false),
            },
            (false, false) => Step::More(self),
        }
    }
}

// The next line of what stands in the window. The buffer and its window stay two parameters here and below: a struct of both is no plainer,
// since a `&mut` beside a ghost field has to be taken out for each call and put back.
#[tactic(auto, using(std::proofs::lemmas::Bool::Decides::nat_tests), unfolding(crate::specs::Cut::cut_of))]
fn cut(buffer: &[u8], window: Window) -> Step
    requires { Fine buffer.now window }
    ensures { result ≡ cut_of buffer.now window }
{
    let end = lines::line_end(buffer, window.from, window.to);
    if end < window.to {
        window.whole(end)
    } else {
        window.partial()
    }
}

// Moves what stands in the window to the start of the buffer, and reads once behind it. Where nothing comes the input has ended, and a read
// that fails brings nothing.
fn fill<R: Read>(input: &mut R, buffer: &mut [u8], window: Window) -> Window
    requires { Fine buffer.old window }
    ensures { Filled buffer.old window buffer.new result }
{
    let held = window.to - window.from;
    buffer.copy_within(window.from..window.to, 0);
    let got = input.read(&mut buffer[held..]);
    let count = got.unwrap_or(0);
    Window {
        from: 0,
        to: held + count,
        ended: count == 0,
        ..window
    }
}

// The window with more input behind what stands in it. Nothing is read where the input has ended, or where a whole line may stand there
// already.
fn more<R: Read>(input: &mut R, buffer: &mut [u8], window: Window) -> Window
    requires { Fine buffer.old window }
    ensures { Filled buffer.old window buffer.new result }
{
    if window.ended || LINE_LIMIT < window.to - window.from {
        return window;
    }
    fill(input, buffer, window)
}

// One step: the next line that stands in the buffer whole, or one read where none does.
fn advance<R: Read>(input: &mut R, buffer: &mut [u8], window: Window) -> Step
    ensures { Handed buffer.old window buffer.new result }
{
    if window.to < window.from || buffer.len() < window.to {
        return Step::End;
    }
    match cut(buffer, window) {
        Step::More(next) => Step::More(more(input, buffer, next)),
        step => step,
    }
}

// One step over a whole buffer: hands out a line, tells one that is too long, asks to be called again, or tells the input's end.
pub fn next_line<R: Read>(input: &mut R, buffer: &mut [u8; BUFFER_SIZE], window: Window) -> Step
    ensures { Handed buffer.old window buffer.new result }
{
    advance(input, buffer, window)
}
