//! What no clause says of a live system: that calls succeed, which error comes when, and that threads end.
mod calls;
mod runs;
mod tries;
