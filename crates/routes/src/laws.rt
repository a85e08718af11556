ghost use Rattle.std.specs.Prelude.{◌≡◌, ◌≢◌, ℕ, ◌+◌, ◌*◌, ◌<◌, ◌≤◌, List, [], ◌∷◌, length, All};
ghost use Rattle.sys_base.specs.declared.kinds.Dir.{Dir};
ghost use Rattle.sys_base.specs.Grid.{Extent, cell_count};
ghost use Rattle.routes.specs.declared.error.RouteError.{RouteError};
ghost use Rattle.routes.specs.Faults.{IsFault};
ghost use Rattle.routes.specs.Walks.{IsRoute, IsPath};

/// A law: two cells and the directions given between them have at most one route and at most one first fault, and
/// never both; and no fault where no directions are given.
pub fn one_route()
    ensures routes { (g : Extent) (from to : ℕ) (given : List Dir) (links others : List ℕ)
        → IsRoute g from to given links → IsRoute g from to given others → links ≡ others }
    ensures faults { (g : Extent) (from to : ℕ) (given : List Dir) (e f : RouteError)
        → IsFault g from to given e → IsFault g from to given f → e ≡ f }
    ensures apart { (g : Extent) (from to : ℕ) (given : List Dir) (links : List ℕ) (e : RouteError)
        → IsRoute g from to given links → IsFault g from to given e → ⊥ }
    ensures default { (g : Extent) (from to : ℕ) (e : RouteError)
        → from < cell_count g → to < cell_count g → IsFault g from to [] e → ⊥ }
{}

/// A law: a path from a cell of the grid ends at a cell of the grid; between two cells it has at least one link and at
/// most as many as the grid has ids, each below four times the cells; and a route by directions is a path.
pub fn path_bounds()
    ensures routes { (g : Extent) (from to : ℕ) (given : List Dir) (links : List ℕ)
        → IsRoute g from to given links → IsPath g from links to }
    ensures inside { (g : Extent) (from to : ℕ) (links : List ℕ)
        → from < cell_count g → IsPath g from links to → to < cell_count g }
    ensures some { (g : Extent) (from to : ℕ) (links : List ℕ)
        → from ≢ to → IsPath g from links to → 0 < length links }
    ensures most { (g : Extent) (from to : ℕ) (links : List ℕ)
        → from < cell_count g → IsPath g from links to → length links ≤ 4 * cell_count g }
    ensures each { (g : Extent) (from to : ℕ) (links : List ℕ)
        → from < cell_count g → IsPath g from links to → All (λ link. link < 4 * cell_count g) links }
{}

/// A law: a route by given directions has a link for each of them; a default route between cells of the grid has fewer
/// links than the grid has rows and columns.
pub fn route_lengths()
    ensures given { (g : Extent) (from to : ℕ) (d : Dir) (ds : List Dir) (links : List ℕ)
        → IsRoute g from to (d ∷ ds) links → length links ≡ length (d ∷ ds) }
    ensures default { (g : Extent) (from to : ℕ) (links : List ℕ)
        → from < cell_count g → to < cell_count g → IsRoute g from to [] links → length links < g.rows + g.cols }
{}
