ghost use Rattle.std.specs.Prelude.{◌≡◌, Some, IfOk, OnOk};
ghost use Rattle.std.specs.Process.{command_var, clears_env, SameProgramAndArgs, SameOtherVars};
ghost use Rattle.daemon_desk.specs.Commands.{program_of, IsStartOf, SetsArguments, SetsUp, SetsVariables};

use daemon_requirements::{Pair, Requirements};
use item_actions::Text;
use std::alloc::{AllocError, Global};
use std::process::{Command, Stdio};

/// The executable of requirements that means the program which starts the daemon.
const OWN_PROGRAM: &str = "self";

/// The command that starts a daemon with these requirements, where `own` is the program that starts it: the word `worker`
/// and the arguments, the variables in the environment, and pipes for its input and its output. Heap, properties, switches,
/// encoding and keep-alive mode serve for matching alone.
pub(crate) fn command_of(
    alloc: Global,
    own: &str,
    asked: &Requirements,
) -> Result<Command, AllocError>
    ensures { IfOk result (λ command. IsStartOf own.now asked.now command) }
{
    let fields = asked.fields();
    let mut command = Command::new(alloc, program_of(own, fields.executable.as_str()))?;
    set_up(&mut command, &fields.args, &fields.variables)?;
    Ok(command)
}

// Sets the pipes, the word `worker` with the arguments, and the variables.
fn set_up(command: &mut Command, args: &[Text], variables: &[Pair]) -> Result<(), AllocError>
    ensures { OnOk result (SetsUp args.now variables.now command.old command.new) }
{
    command.stdin(Stdio::piped()).stdout(Stdio::piped());
    add_arguments(command, args)?;
    add_variables(command, variables)
}

// The program to start: this one where the executable says so, or the executable.
fn program_of<'a>(own: &'a str, executable: &'a str) -> &'a str
    ensures { result.now ≡ program_of own.now executable.now }
{
    if executable == OWN_PROGRAM {
        own
    } else {
        executable
    }
}

// Adds the word `worker`, and these arguments behind it.
fn add_arguments(command: &mut Command, args: &[Text]) -> Result<(), AllocError>
    ensures { OnOk result (SetsArguments args.now command.old command.new) }
{
    command.arg("worker")?;
    for arg in args {
        command.arg(arg.as_str())?;
    }
    Ok(())
}

// Sets each of the variables, in their order.
fn add_variables(command: &mut Command, variables: &[Pair]) -> Result<(), AllocError>
    ensures { OnOk result (SetsVariables variables.now command.old command.new) }
{
    for variable in variables {
        add_variable(command, variable)?;
    }
    Ok(())
}

// Sets one variable.
fn add_variable(command: &mut Command, variable: &Pair) -> Result<(), AllocError>
    ensures set { OnOk result (command_var command.new variable.now.name ≡ Some (Some variable.now.value)) }
    ensures others { OnOk result (SameOtherVars command.old command.new variable.now.name) }
    ensures call { OnOk result (SameProgramAndArgs command.old command.new) }
    ensures inherits { OnOk result (clears_env command.new ≡ clears_env command.old) }
{
    command.env(variable.name.as_str(), variable.value.as_str())?;
    Ok(())
}
