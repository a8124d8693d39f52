// Which access a worker makes next: control only, what was read is in the worker's registers. The letters are those of
// docs/ALGORITHM.md.

// Where help_finish_enq and help_finish_deq go on when they end.
#[derive(Clone, Copy)]
pub enum Return {
    // to the beginning of help_enq
    HelpEnq,
    // to the beginning of help_deq
    HelpDeq,
    // out of help_enq, to the next worker of the loop
    NextWorker,
    // to the end of the worker's own order
    End,
}

// An order's own accesses, before, between and after helping.
#[derive(Clone, Copy)]
pub enum OrderStage {
    // reads the entries in turn for the largest phase
    Scan,
    // writes the worker's own entry
    Announce,
    // reads the entry of the next worker to help
    Look,
    // reads the worker's own entry at the end of a fetch
    Recall,
    // reads the successor of the node that the fetch took
    Follow,
}

#[derive(Clone, Copy)]
pub enum FinishEnqStage {
    E1,
    E2,
    E3,
    E4,
    E5,
    E6,
    E7,
    E8,
}

#[derive(Clone, Copy)]
pub enum FinishDeqStage {
    D1,
    D2,
    D3,
    D4,
    D5,
    D6,
    D7,
    D8,
    D9,
}

#[derive(Clone, Copy)]
pub enum HelpEnqStage {
    C1,
    C2,
    P1,
    P2,
    P3,
    C1AfterP3,
    C2AfterP3,
    P4,
    P5,
}

#[derive(Clone, Copy)]
pub enum HelpDeqStage {
    C1,
    C2,
    T1,
    T2,
    T3,
    T4,
}

// In help_deq, where the queue was seen empty.
#[derive(Clone, Copy)]
pub enum EmptyStage {
    T5,
    T6,
    C1,
    C2,
    T7,
    T8,
}

// In help_deq, where there is an element to take.
#[derive(Clone, Copy)]
pub enum TakeStage {
    T9,
    C1,
    C2,
    T10,
    T11,
    T12,
    T13,
}

#[derive(Clone, Copy)]
pub enum Stage {
    // the worker has no order
    Idle,
    Order(OrderStage),
    FinishEnq(FinishEnqStage, Return),
    FinishDeq(FinishDeqStage, Return),
    HelpEnq(HelpEnqStage),
    HelpDeq(HelpDeqStage),
    Empty(EmptyStage),
    Take(TakeStage),
}
