ghost use Rattle.std.specs.Prelude.{◌≡◌, ◌<◌, ◌^◌, ℕ, List, length, Some, position, option_map, slice_get};
ghost use denote.Ref.{Bor};
ghost use Rattle.std.specs.Str.{bytes_eq};
ghost use Rattle.lid_design.specs.Models.{IsReached, instance_number, is_clock_of, data_inputs_of};
ghost use Rattle.lid_design.specs.Elaboration.{model_nets};
ghost use Rattle.lid_design.specs.declared.Model.{Model};
ghost use Rattle.lid_check_table.specs.Tables.{names_in, AreNumbersOf};
ghost use Rattle.lid_check_hierarchy.specs.Surveys.{IsModelOrder};
ghost use Rattle.lid_check_names.specs.Names.{texts};
ghost use Rattle.lid_check_rules.specs.Acceptance.{ModelsPass};
ghost use Rattle.lid_check_drivers.specs.Judged.{IsJudged};

use lid_check_hierarchy::Survey;
use lid_check_table::Table;
use lid_design::Design;
use std::marker::Model;

/// The survey of a design whose models pass the conditions on models. A contract sees the design.
#[derive(Drop)]
pub struct Judged<'d> {
    survey: Survey<'d>,
}

impl<'d> Model for Judged<'d> {
    ghost use Rattle.lid_design.specs.declared.Design.{Design};
    ghost use Rattle.lid_check_drivers.specs.Judged.{IsJudged};

    ghost Value = { Design };

    ghost view = { λ j. j.survey };

    ghost invariant = { λ j. IsJudged j.survey };
}

/// The survey of a design whose models were seen to pass the conditions on models.
pub fn judge(survey: Survey<'_>) -> Judged<'_>
    requires { ModelsPass survey }
    ensures { result ≡ survey.entry }
{
    let _ = survey.design();
    let _ = survey.order();
    Judged { survey }
}

impl<'d> Judged<'d> {
    /// The survey.
    pub fn survey(&self) -> &Survey<'d>
        ensures same { result.now ≡ self.now }
        ensures judged { IsJudged self.now }
    {
        &self.survey
    }

    /// The design.
    pub fn design(&self) -> &'d Design
        ensures same { result.now ≡ self.now }
        ensures judged { IsJudged self.now }
    {
        self.survey.design()
    }

    /// The numbers of the reached models, each after those of the models of its instances.
    pub fn order(&self) -> &[u32]
        ensures { IsModelOrder self.now result.now }
    {
        self.survey.order()
    }

    /// The number of the model of an instance, by the numbers of the model that has it and of the
    /// instance in that model. `None` where there is no such instance.
    pub fn model_of(&self, model: u32, inst: u32) -> Option<u32>
        ensures { result ≡ instance_number self.now inst model }
    {
        self.survey.model_of(model, inst)
    }

    /// Whether a name is a clock name of a reached model.
    pub fn is_clock(&self, model: u32, name: &[u8]) -> bool
        requires { IsReached self.now model }
        ensures { result ≡ is_clock_of self.now model name.now }
    {
        self.survey.is_clock(model, name)
    }

    /// The names of a reached model by numbers.
    pub fn table_of(&self, model: u32) -> &Table<'d>
        requires { IsReached self.now model }
        ensures { slice_get self.now.models model ≡ Some result.now }
    {
        self.survey.table_of(model)
    }

    /// The numbers of the nets of a reached model, in order.
    pub fn nets_of(&self, model: u32) -> &[u32]
        requires { IsReached self.now model }
        ensures { (m : Model) → slice_get self.now.models model ≡ Some m → AreNumbersOf (names_in m) (model_nets self.now model) result.now }
    {
        self.survey.nets_of(model)
    }

    /// The place of a name of a reached model among its nets, by the number of the name. `None` where
    /// it is a clock name.
    pub fn place_at(&self, model: u32, number: u32) -> Option<u32>
        requires { IsReached self.now model }
        ensures { (m : Model) (name : List ℕ) → slice_get self.now.models model ≡ Some m → slice_get (names_in m) number ≡ Some name → result ≡ position (bytes_eq name) (model_nets self.now model) }
    {
        self.survey.place_at(model, number)
    }

    /// How many nets a reached model has.
    pub fn count_nets(&self, model: u32) -> usize
        requires { IsReached self.now model }
        ensures value { result ≡ length (model_nets self.now model) }
        ensures small { result < 2 ^ 63 }
    {
        self.survey.count_nets(model)
    }

    /// The name of a net of a reached model, by its place among the nets.
    pub fn net_at(&self, model: u32, place: usize) -> Option<&'d [u8]>
        requires { IsReached self.now model }
        ensures { option_map (λ (r : Bor (List ℕ)). r.now) result ≡ slice_get (model_nets self.now model) place }
    {
        self.survey.net_at(model, place)
    }

    /// The place of a net of a reached model, by its name.
    pub fn place_of(&self, model: u32, name: &[u8]) -> Option<usize>
        requires { IsReached self.now model }
        ensures { result ≡ position (bytes_eq name.now) (model_nets self.now model) }
    {
        self.survey.place_of(model, name)
    }

    /// The data inputs of a reached model, in order.
    pub fn data_inputs(&self, model: u32) -> &[&'d [u8]]
        requires { IsReached self.now model }
        ensures { texts result.now ≡ data_inputs_of self.now model }
    {
        self.survey.data_inputs(model)
    }
}
