//! What the definitions of this crate say together. Each function is a law: its contract is what it is for, and
//! it does nothing when it runs.

ghost use Rattle.std.specs.Prelude.{◌≡◌, ◌≢◌, ◌≤◌, ◌↔◌, ◌==◌, ℕ, false, List, [], ◌∷◌, ◌++◌, length, slice_get, take, AllPairs, Contains, None, Some, Ok, Err};
ghost use Rattle.std.specs.List.{list_any};
ghost use Rattle.psi_tables.specs.declared.pat.PatEntry.{PatEntry};
ghost use Rattle.psi_tables.specs.declared.pmt.Pmt.{Pmt};
ghost use Rattle.psi_tables.specs.declared.pmt.PmtStream.{PmtStream};
ghost use Rattle.psi_tables.specs.declared.components.Component.{Component};
ghost use Rattle.psi_tables.specs.declared.services.Selection.{Selection};
ghost use Rattle.psi_tables.specs.Components.{components_of, AreApart};
ghost use Rattle.psi_tables.specs.History.{Handled, map_at_first, map_of, service_of};
ghost use Rattle.psi_tables.specs.Places.{CountsAt, IsLast, NamesAt, TakenAt};
ghost use Rattle.psi_tables.specs.Table.{association_table, map_table, IsOfTable};
ghost use Rattle.psi_tables.specs.Pat.{IsPat};
ghost use Rattle.psi_tables.specs.Pmt.{IsPmt};
ghost use Rattle.psi_tables.specs.Reading.{pat_in, pmt_in};
ghost use Rattle.psi_tables.specs.Service.{ServicesState, StandsFor, reads_table, wanted_pids, wants};

use crate::services::Selection;
use bml_bytes::{TableFault, law_of_fields};
use table_fields::law_of_descriptors;

/// A section has at most one list of entries of a PAT, and reading gives it.
pub fn law_of_pat()
    ensures one { (section : List ℕ) (entries others : List PatEntry) →
        IsPat section entries → IsPat section others → entries ≡ others }
    ensures ok { (section : List ℕ) (entries : List PatEntry) →
        IsPat section entries ↔ (pat_in section ≡ Ok entries) }
    ensures kind { (section : List ℕ) →
        IsOfTable association_table section ↔ (pat_in section ≢ Err TableFault.Kind) }
    ensures short { (section : List ℕ) → pat_in section ≡ Err TableFault.Short →
        IsOfTable association_table section
        × ((entries : List PatEntry) → ¬ IsPat section entries) }
{
    law_of_fields();
}

/// A section has at most one list of fields of a PMT, and reading gives it.
pub fn law_of_pmt()
    ensures one { (section : List ℕ) (pmt other : Pmt) →
        IsPmt section pmt → IsPmt section other → pmt ≡ other }
    ensures ok { (section : List ℕ) (pmt : Pmt) → IsPmt section pmt ↔ (pmt_in section ≡ Ok pmt) }
    ensures kind { (section : List ℕ) →
        IsOfTable map_table section ↔ (pmt_in section ≢ Err TableFault.Kind) }
    ensures short { (section : List ℕ) → pmt_in section ≡ Err TableFault.Short →
        IsOfTable map_table section × ((pmt : Pmt) → ¬ IsPmt section pmt) }
{
    law_of_fields();
    law_of_descriptors();
}

/// The service is the one that the PAT names at the last place of the history where one counts, and the component
/// map is the components of the PMT at the last place where one counts. With a data PID no PMT counts. Its components
/// have distinct tags and distinct PIDs.
pub fn law_of_component_map()
    ensures service { (selection : Selection) (history : List Handled) (place : ℕ)
        (service : PatEntry) → IsLast (NamesAt selection history) place service
        → service_of selection history ≡ Some service }
    ensures no_service { (selection : Selection) (history : List Handled)
        → ((place : ℕ) (service : PatEntry) → ¬ NamesAt selection history place service)
        → service_of selection history ≡ None }
    ensures map { (selection : Selection) (history : List Handled) (place : ℕ) (pmt : Pmt)
        → IsLast (CountsAt selection history) place pmt
        → map_of selection history ≡ components_of pmt.streams }
    ensures no_map { (selection : Selection) (history : List Handled)
        → ((place : ℕ) (pmt : Pmt) → ¬ CountsAt selection history place pmt)
        → map_of selection history ≡ map_at_first selection }
    ensures data_pid { (pid : ℕ) (history : List Handled)
        → map_of (Selection.Pid pid) history ≡ record { tag = 0x40; pid = pid } ∷ [] }
    ensures apart { (selection : Selection) (history : List Handled)
        → AllPairs AreApart (map_of selection history) }
{}

/// The components of some streams have distinct tags and distinct PIDs, and there are at most 16. They are those that
/// are taken at some place of the streams, each behind those taken at the places before it.
pub fn law_of_components()
    ensures distinct { (streams : List PmtStream) → AllPairs AreApart (components_of streams) }
    ensures few { (streams : List PmtStream) → length (components_of streams) ≤ 16 }
    ensures somewhere { (streams : List PmtStream) (component : Component) →
        Contains (components_of streams) component → (place : ℕ) × TakenAt streams place component }
    ensures order { (streams : List PmtStream) (place : ℕ) (component : Component) →
        TakenAt streams place component →
        slice_get (components_of streams) (length (components_of (take place streams)))
        ≡ Some component }
{}

/// A section on a PID on which no table is read changes neither the service nor the component map, so what
/// stands for the history before it stands for the history with it.
pub fn law_of_unread_sections()
    ensures service { (selection : Selection) (history : List Handled) (handled : Handled) →
        reads_table selection (service_of selection history) handled.pid ≡ false →
        service_of selection (history ++ handled ∷ []) ≡ service_of selection history }
    ensures map { (selection : Selection) (history : List Handled) (handled : Handled) →
        reads_table selection (service_of selection history) handled.pid ≡ false →
        map_of selection (history ++ handled ∷ []) ≡ map_of selection history }
    ensures stands { (state : ServicesState) (history : List Handled) (handled : Handled) →
        reads_table state.selection state.service handled.pid ≡ false →
        StandsFor state history → StandsFor state (history ++ handled ∷ []) }
{}

/// The PIDs that are wanted are those of the tables and of the components, so there are at most 18 of them.
pub fn law_of_wanted_pids()
    ensures wanted { (state : ServicesState) (pid : ℕ) →
        wants state pid ≡ list_any (λ wanted. wanted == pid) (wanted_pids state) }
    ensures components { (selection : Selection) (history : List Handled) →
        length (map_of selection history) ≤ 16 }
    ensures few { (state : ServicesState) → length state.map ≤ 16
        → length (wanted_pids state) ≤ 18 }
    ensures always { (state : ServicesState) (history : List Handled) → StandsFor state history →
        length (wanted_pids state) ≤ 18 }
{}
