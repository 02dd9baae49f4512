// What a worker carries, in the three parts of the paper on which the rules rest (Acar, Charguéraud
// and Rainey, 2015). Its frontier is a front range `r1`, a middle `vs` of whole vertices and a back
// range `r2`, followed in this order; its edges are our references, and its ranges our runs.

// Which of the three held, before a hand-over, the last reference that the giver keeps.
#[derive(Clone, Copy)]
pub enum Held {
    // The run to be followed first: the paper's `r1`.
    Front,
    // The last of two or more runs: `r2`.
    Back,
    // Another run: `vs`.
    Middle,
}
