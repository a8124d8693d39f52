// A call on a run. Workers are named by any number; whether there is such a worker is for the run to judge.
#[derive(Clone, Copy)]
pub enum Call<T> {
    // the worker orders that the element be added at the end
    Post { worker: u8, element: T },
    // the worker orders the first element
    Fetch { worker: u8 },
    // the worker makes one step
    Step { worker: u8 },
    // the worker that the picker names makes one step
    Turn,
}
