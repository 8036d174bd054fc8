// What the question for the first full plan answers.

// How the search ended, with its trials.
#[derive(Clone, Copy)]
pub enum FirstPlan {
    // a slot for each call, 255 for calls that are not laid
    Found(u32, [u8; 32]),
    // there is no full plan
    Nothing(u32),
    // more trials are needed than the ceiling, which is the count here
    Stopped(u32),
}
