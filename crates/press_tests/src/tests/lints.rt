use press_kit::read_play_file;
use press_lint::{active_slips, slips};
use std::test::Fail;

// What a play runs is run.
#[test]
fn plays_run_hooks_too(rt: HostRuntime) -> Result<(), Fail> {
    let alloc = rt.alloc();
    let file =
        br#"{"kit":{"callbacks":[{"name":"a","script":[]}],"plugins":[{"name":"p","load":[{"hook":"mine","callback":"a"}]}]},"active":["p","q"],"plays":[{"do":"mine"}]}"#;
    let Ok(play) = read_play_file(alloc, file) else {
        return Err(Fail::from("no play file"));
    };
    let told = slips(alloc, "> ", &play.kit, &[])?;
    assert_eq!(rt;
        told.as_str(),
        "> plugins[0] \"p\": load[0] puts a callback on a hook that nothing runs: \"mine\"\n"
    );
    let told = slips(alloc, "> ", &play.kit, play.plays.as_slice())?;
    assert_eq!(rt; told.as_str(), "");
    let told = active_slips(alloc, "> ", &play.kit, play.active.as_slice())?;
    assert_eq!(rt;
        told.as_str(),
        "> active[1]: names a plugin that is not in the kit: \"q\"\n"
    );
    Ok(())
}
