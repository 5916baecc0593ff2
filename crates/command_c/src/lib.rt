// A whole script from memory for C: the call of `command`, exported under its clause.
#![tactic(auto)]

ghost use Rattle.command.specs.Script.{IsScript};

// Annex 11.24: runs a script and answers how many bytes it wrote. It stops before a line for whose answer fewer than 1,430 bytes are left.
#[unsafe(no_mangle)]
pub extern "C" fn run_script(script: &[u8], out: &mut [u8]) -> usize
    ensures { IsScript script.now out.old out.new result }
{
    command::run_script(script, out)
}
