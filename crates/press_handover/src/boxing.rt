//! Kits whose closures are boxed where they are made: a function can't return a box, so a macro
//! makes them.

/// The kit of callbacks and plugins, or the fault of its making; out of memory is passed on by `?`.
macro_rules! kit_of {
    ($alloc:ident, $parts:ident) => {{
        let mut callbacks: Vec<Stored> = Vec::new($alloc);
        for scripted in $parts.callbacks.into_vec() {
            let own = scripted.script.copy_in($alloc)?;
            let call: BoxedTurns = Box::new($alloc, move |input: &CallIn| {
                script_turn($alloc, &own, input)
            })?;
            callbacks.push(Stored::new(scripted.id, scripted.script, call))?;
        }
        Kit::build($alloc, callbacks, $parts.plugins.into_vec())
    }};
}

pub(crate) use kit_of;
