// What a value has to do with the input that it is made of.

/// Values that are made of an input of type `I`. It has no calls.
pub trait MadeOf<I> {
    /// Whether the value is made of the input. Where more than one value is, any of them may be shown.
    ghost made_of: { I → Self → Type 0 };
}
