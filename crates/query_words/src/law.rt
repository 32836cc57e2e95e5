//! What the definitions of queries say of every text.
ghost use Rattle.std.specs.Prelude.{Result, ℕ};
ghost use Rattle.list_laws.specs.Only.{IsOnly};
ghost use Rattle.dataselect.specs.declared.query.DataQuery.{DataQuery};
ghost use Rattle.query_words.specs.DataGet.{IsDataGet, IsGetFault};
ghost use Rattle.query_words.specs.DataPost.{IsDataPost, IsPostFault};
ghost use Rattle.query_parameters.specs.Rows.{Text};
ghost use Rattle.query_words.specs.AvailGet.{IsAvailGet, IsAvailGetFault};
ghost use Rattle.query_words.specs.AvailPost.{IsAvailPost, IsAvailPostFault};
ghost use Rattle.query_words.specs.declared.avail.AvailMethod.{AvailMethod};
ghost use Rattle.query_words.specs.declared.avail.AvailQuery.{AvailQuery};
ghost use Rattle.query_words.specs.EventGet.{IsEventGet, IsEventGetFault};
ghost use Rattle.query_words.specs.NumberGet.{IsNumberGet, IsNumberGetFault};
ghost use Rattle.query_words.specs.declared.event.EventQuery.{EventQuery};
ghost use Rattle.query_words.specs.StationGet.{IsStationGet, IsStationGetFault};
ghost use Rattle.query_words.specs.StationPost.{IsStationPost, IsStationPostFault};
ghost use Rattle.query_words.specs.declared.station.StationQuery.{StationQuery};
ghost use Rattle.query_parameters.specs.declared.fault.QueryFault.{QueryFault};

/// Every query string asks for exactly one query, or has exactly one fault.
pub fn a_query_string_is_one_query_or_one_fault()
    ensures { (text : Text) → (answer : Result DataQuery QueryFault) × IsOnly (IsDataGet text) (IsGetFault text) answer }
{}

/// Every body asks for exactly one query, or has exactly one fault.
pub fn a_body_is_one_query_or_one_fault()
    ensures { (text : Text) → (answer : Result DataQuery QueryFault) × IsOnly (IsDataPost text) (IsPostFault text) answer }
{}

/// Every query string asks station for exactly one query, or has exactly one fault.
pub fn a_station_query_string_is_one_query_or_one_fault()
    ensures { (text : Text) → (answer : Result StationQuery QueryFault) × IsOnly (IsStationGet text) (IsStationGetFault text) answer }
{}

/// Every body asks station for exactly one query, or has exactly one fault.
pub fn a_station_body_is_one_query_or_one_fault()
    ensures { (text : Text) → (answer : Result StationQuery QueryFault) × IsOnly (IsStationPost text) (IsStationPostFault text) answer }
{}

/// Every query string asks event for exactly one query, or has exactly one fault.
pub fn a_query_string_for_events_is_one_query_or_one_fault()
    ensures { (text : Text) → (answer : Result EventQuery QueryFault) × IsOnly (IsEventGet text) (IsEventGetFault text) answer }
{}

/// Every query string gives exactly one number under the one name of its method, or has exactly one fault.
pub fn a_query_string_for_a_number_is_one_number_or_one_fault()
    ensures { (name text : Text) → (answer : Result ℕ QueryFault) × IsOnly (IsNumberGet name text) (IsNumberGetFault name text) answer }
{}

/// Every query string asks a method of availability for exactly one query, or has exactly one fault.
pub fn a_query_string_for_availability_is_one_query_or_one_fault()
    ensures { (method : AvailMethod) (text : Text) → (answer : Result AvailQuery QueryFault) × IsOnly (IsAvailGet method text) (IsAvailGetFault method text) answer }
{}

/// Every body asks a method of availability for exactly one query, or has exactly one fault.
pub fn a_body_for_availability_is_one_query_or_one_fault()
    ensures { (method : AvailMethod) (text : Text) → (answer : Result AvailQuery QueryFault) × IsOnly (IsAvailPost method text) (IsAvailPostFault method text) answer }
{}
