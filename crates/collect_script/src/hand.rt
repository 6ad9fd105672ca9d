/// The dialer and the clock of one hand.
#[derive(Debug, Drop)]
pub struct Hand1<N, C> {
    pub dialer: N,
    pub clock: C,
}
