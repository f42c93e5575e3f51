// The end of an edit.
ghost use Rattle.std.specs.Prelude.{◌≡◌, []};
ghost use Rattle.ms_paths.specs.Flow.{IsClosed, IsReducible};
ghost use Rattle.ms_ir.specs.Graph.{graph_of};
ghost use Rattle.ms_ir.specs.Locals.{IsNumbered};
ghost use Rattle.ms_flow.specs.Table.{edges_of};
ghost use Rattle.ms_form.specs.Form.{HasPlaces};
ghost use Rattle.ms_form.specs.Counts.{pred_counts};
ghost use Rattle.ms_build.specs.Built.{IsFilled, IsFormOf};

use ms_build::settle;
use ms_flow::Flow;
use ms_form::Form;
use ms_ir::Func;

/// A filled form of a function becomes its form. It takes no memory.
pub fn finish(form: &mut Form, func: &Func, flow: &Flow)
    requires graph { flow.now.graph ≡ edges_of func.now.blocks }
    requires closed { IsClosed (graph_of func.now.blocks) }
    requires reducible { IsReducible flow.now.graph }
    requires places { HasPlaces (pred_counts flow.now) func.now.made form.old }
    requires filled { IsFilled func.now flow.now.graph form.old }
    ensures form { IsFormOf func.now form.new }
    ensures numbered { IsNumbered func.now }
    ensures places { HasPlaces (pred_counts flow.now) func.now.made form.new }
    ensures spare { form.new.spare ≡ form.old.spare }
    ensures waiting { form.new.waiting ≡ [] }
{
    func.numbered();
    ms_flow::laws::order_told();
    ms_flow::laws::same_paths();
    ms_flow::laws::sources_told();
    ms_paths::laws::whole_form();
    ms_paths::laws::region_form();
    settle(form, flow);
}
