/// What may be wrong with a trace whose words are of the format. Each place is how much of the text is left there.
#[derive(Clone, Copy)]
pub enum TraceMistake {
    NoThread(usize),
    TooManySteps(usize),
    TooManyCells,
}
