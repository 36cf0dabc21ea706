//! Kits whose closures are boxed where they are made: a function can't return a box, so macros make
//! them.

/// The demonstration kit, or the fault of its making. The caller imports the names that are used
/// here; out of memory is passed on by `?`.
#[macro_export]
macro_rules! demonstration_kit {
    ($alloc:ident) => {{
        let parts = parts($alloc)?;
        let mut callbacks: Vec<Stored> = Vec::new($alloc);
        let call: BoxedTurns = Box::new($alloc, move |input: &CallIn| grow_turn($alloc, input))?;
        callbacks.push(Stored::new(grow(), parts.growing, call))?;
        for scripted in parts.played {
            let own = scripted.own;
            let call: BoxedTurns = Box::new($alloc, move |input: &CallIn| {
                script_turn($alloc, &own, input)
            })?;
            callbacks.push(Stored::new(scripted.id, scripted.script, call))?;
        }
        Kit::build($alloc, callbacks, parts.plugins)
    }};
}

/// The kit of what a kit file gave, likewise.
#[macro_export]
macro_rules! filed_kit {
    ($alloc:ident, $parts:ident) => {{
        let mut callbacks: Vec<Stored> = Vec::new($alloc);
        for scripted in $parts.callbacks.into_vec() {
            let own = scripted.script.copy_in($alloc)?;
            let call: BoxedTurns = Box::new($alloc, move |input: &CallIn| {
                script_turn($alloc, &own, input)
            })?;
            callbacks.push(Stored::new(scripted.id, scripted.script, call))?;
        }
        Kit::build($alloc, callbacks, $parts.plugins.into_vec())
    }};
}
