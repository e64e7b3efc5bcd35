//! The circuits of a run agree.
ghost use Rattle.spl_cli.specs.declared.command.Command.{Command};
ghost use Rattle.spl_circuit_world.specs.Worlds.{IsOrigin, Origin};
ghost use Rattle.spl_runs.specs.Run.{Plan};
ghost use Rattle.spl_app.specs.Headline.{PlanAgrees, OwnLinesDecide};

use crate::{traces_ask_watchers_alike, watchers_take_on, watchers_take_one_list};
use spl_circuit_safety::{
    answers_show_prefixes, circuits_agree, members_tell_one_list, resumed_circuits_agree,
};
use spl_circuit_world::{own_lines_decide, own_lines_suffice};
use spl_delta::watch_lines_are_read_back;
use spl_sched::lines_have_one_spelling;
use spl_trace::{flat_schedules_fit, traces_are_one_run};

/// Whatever a plan runs, the members of each circuit agree at each moment, what they answer is of one
/// list, what is shown of a circuit is of prefixes of its lists, each watcher takes what the
/// batches of that list changed, and a schedule and its trace are one run, in which watchers are answered
/// alike. A run that goes on from what
/// a former one left agrees with that one, and shows and gives to watchers what they have as one.
pub fn runs_agree()
    ensures { (m : Command) (p : Plan) → PlanAgrees m p }
{
    traces_are_one_run();
    traces_ask_watchers_alike();
    flat_schedules_fit();
    resumed_circuits_agree();
    circuits_agree();
    members_tell_one_list();
    answers_show_prefixes();
    watchers_take_one_list();
    watchers_take_on();
    watch_lines_are_read_back();
    lines_have_one_spelling();
}

/// From wherever a run begins, a circuit's own lines alone decide what is answered about it and what its nodes keep of it.
pub fn circuits_are_decided()
    ensures { (o : Origin) → IsOrigin o → OwnLinesDecide o }
{
    own_lines_decide();
    own_lines_suffice();
}
