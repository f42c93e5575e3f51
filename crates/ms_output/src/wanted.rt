/// What is to be written for a module: each function's printed form so many times, and the module's text behind them, or not.
#[derive(Clone, Copy)]
pub struct Wanted {
    pub prints: usize,
    pub shows_module: bool,
}
