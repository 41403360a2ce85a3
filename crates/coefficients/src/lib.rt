// The coefficients of both families, as `cfode` computes them, and the stability limits SM1.
// One table of 384 numbers: for each family 12 orders of 13 numbers (elco) and 12 of 3 (tesco). Unset ones are 0.
// A table is a number, 0 none yet, 1 Adams, 2 BDF: `MethodFamily` stands in common, above. Table and order stay two
// parameters, and their bounds clauses: the table is the record's, the order often another number (the order in force,
// mxordn), so a struct of both would be made for each call.
#![tactic(auto)]

ghost use Rattle.std.specs.Prelude.{◌≡◌, ◌+◌, ◌-◌, ◌*◌, ◌≤◌, ◌<◌, cond, eqb, get_or};
ghost use Rattle.std.specs.Float.{nan};
ghost use Rattle.numbers.specs.Float.{◌⊗◌, zero_f};
ghost use Rattle.coefficients.specs.Cfode.{cfode_of};
ghost use Rattle.coefficients.specs.Table.{elco_of, tesco_of, cm1_of, cm2_of, sm1_of};

const COEFFICIENTS: [f64; 384] = [
    // Adams elco
    1.0,
    1.0,
    0.0,
    0.0,
    0.0,
    0.0,
    0.0,
    0.0,
    0.0,
    0.0,
    0.0,
    0.0,
    0.0,
    0.5,
    1.0,
    0.5,
    0.0,
    0.0,
    0.0,
    0.0,
    0.0,
    0.0,
    0.0,
    0.0,
    0.0,
    0.0,
    0.41666666666666663,
    1.0,
    0.75,
    0.16666666666666666,
    0.0,
    0.0,
    0.0,
    0.0,
    0.0,
    0.0,
    0.0,
    0.0,
    0.0,
    0.375,
    1.0,
    0.9166666666666666,
    0.3333333333333333,
    0.041666666666666664,
    0.0,
    0.0,
    0.0,
    0.0,
    0.0,
    0.0,
    0.0,
    0.0,
    0.34861111111111104,
    1.0,
    1.0416666666666665,
    0.4861111111111111,
    0.10416666666666666,
    0.008333333333333333,
    0.0,
    0.0,
    0.0,
    0.0,
    0.0,
    0.0,
    0.0,
    0.3298611111111111,
    1.0,
    1.1416666666666666,
    0.625,
    0.17708333333333334,
    0.025,
    0.001388888888888889,
    0.0,
    0.0,
    0.0,
    0.0,
    0.0,
    0.0,
    0.3155919312169313,
    1.0,
    1.225,
    0.7518518518518519,
    0.25520833333333337,
    0.04861111111111111,
    0.004861111111111111,
    0.0001984126984126984,
    0.0,
    0.0,
    0.0,
    0.0,
    0.0,
    0.30422453703703695,
    1.0,
    1.2964285714285715,
    0.8685185185185186,
    0.33576388888888886,
    0.07777777777777778,
    0.010648148148148148,
    0.0007936507936507937,
    2.48015873015873e-05,
    0.0,
    0.0,
    0.0,
    0.0,
    0.29486800044091704,
    1.0,
    1.3589285714285715,
    0.9765542328042328,
    0.4171875,
    0.11135416666666667,
    0.01875,
    0.0019345238095238096,
    0.00011160714285714285,
    2.7557319223985893e-06,
    0.0,
    0.0,
    0.0,
    0.2869754464285714,
    1.0,
    1.414484126984127,
    1.0772156084656086,
    0.49856701940035275,
    0.1484375,
    0.029060570987654324,
    0.0037202380952380955,
    0.0002996858465608466,
    1.3778659611992948e-05,
    2.7557319223985894e-07,
    0.0,
    0.0,
    0.28018959644393676,
    1.0,
    1.464484126984127,
    1.1715145502645503,
    0.5793581900352734,
    0.18832286155202824,
    0.04143036265432099,
    0.00621114417989418,
    0.0006252066798941799,
    4.0417401528512645e-05,
    1.5156525573192242e-06,
    2.505210838544172e-08,
    0.0,
    0.27426554003159903,
    1.0,
    1.5099386724386725,
    1.2602711640211641,
    0.6592341820987655,
    0.23045800264550267,
    0.05569724610523222,
    0.009439484126984128,
    0.001119274966931217,
    9.093915343915344e-05,
    4.822530864197532e-06,
    1.5031265031265032e-07,
    2.08767569878681e-09,
    // Adams tesco
    0.0,
    2.0,
    11.999999999999998,
    1.0,
    11.999999999999998,
    24.0,
    1.9999999999999998,
    24.0,
    37.89473684210525,
    1.0,
    37.89473684210525,
    53.333333333333364,
    0.31578947368421045,
    53.333333333333364,
    70.08111239860946,
    0.07407407407407411,
    70.08111239860946,
    87.97090909090909,
    0.01390498261877172,
    87.97090909090909,
    106.87715371248488,
    0.002181818181818182,
    106.87715371248488,
    126.70169864352923,
    0.0002945247842605955,
    126.70169864352923,
    147.36547407683838,
    3.491559155740995e-05,
    147.36547407683838,
    168.80325412117313,
    3.691815828844957e-06,
    168.80325412117313,
    190.96020155120058,
    3.524064515049076e-07,
    190.96020155120058,
    0.0,
    // BDF elco
    1.0,
    1.0,
    0.0,
    0.0,
    0.0,
    0.0,
    0.0,
    0.0,
    0.0,
    0.0,
    0.0,
    0.0,
    0.0,
    0.6666666666666666,
    1.0,
    0.3333333333333333,
    0.0,
    0.0,
    0.0,
    0.0,
    0.0,
    0.0,
    0.0,
    0.0,
    0.0,
    0.0,
    0.5454545454545454,
    1.0,
    0.5454545454545454,
    0.09090909090909091,
    0.0,
    0.0,
    0.0,
    0.0,
    0.0,
    0.0,
    0.0,
    0.0,
    0.0,
    0.48,
    1.0,
    0.7,
    0.2,
    0.02,
    0.0,
    0.0,
    0.0,
    0.0,
    0.0,
    0.0,
    0.0,
    0.0,
    0.43795620437956206,
    1.0,
    0.8211678832116789,
    0.3102189781021898,
    0.05474452554744526,
    0.0036496350364963502,
    0.0,
    0.0,
    0.0,
    0.0,
    0.0,
    0.0,
    0.0,
    0.0,
    0.0,
    0.0,
    0.0,
    0.0,
    0.0,
    0.0,
    0.0,
    0.0,
    0.0,
    0.0,
    0.0,
    0.0,
    0.0,
    0.0,
    0.0,
    0.0,
    0.0,
    0.0,
    0.0,
    0.0,
    0.0,
    0.0,
    0.0,
    0.0,
    0.0,
    0.0,
    0.0,
    0.0,
    0.0,
    0.0,
    0.0,
    0.0,
    0.0,
    0.0,
    0.0,
    0.0,
    0.0,
    0.0,
    0.0,
    0.0,
    0.0,
    0.0,
    0.0,
    0.0,
    0.0,
    0.0,
    0.0,
    0.0,
    0.0,
    0.0,
    0.0,
    0.0,
    0.0,
    0.0,
    0.0,
    0.0,
    0.0,
    0.0,
    0.0,
    0.0,
    0.0,
    0.0,
    0.0,
    0.0,
    0.0,
    0.0,
    0.0,
    0.0,
    0.0,
    0.0,
    0.0,
    0.0,
    0.0,
    0.0,
    0.0,
    0.0,
    0.0,
    0.0,
    0.0,
    0.0,
    0.0,
    0.0,
    0.0,
    0.0,
    0.0,
    0.0,
    0.0,
    0.0,
    0.0,
    0.0,
    // BDF tesco
    1.0,
    2.0,
    3.0,
    1.0,
    4.5,
    6.0,
    0.5,
    7.333333333333334,
    9.166666666666668,
    0.16666666666666666,
    10.416666666666668,
    12.5,
    0.041666666666666664,
    13.7,
    15.983333333333333,
    0.0,
    0.0,
    0.0,
    0.0,
    0.0,
    0.0,
    0.0,
    0.0,
    0.0,
    0.0,
    0.0,
    0.0,
    0.0,
    0.0,
    0.0,
    0.0,
    0.0,
    0.0,
    0.0,
    0.0,
    0.0,
];

const SM1: [f64; 12] = [
    0.5, 0.575, 0.55, 0.45, 0.35, 0.25, 0.20, 0.15, 0.10, 0.075, 0.050, 0.025,
];

// Entry i of the table.
#[tactic(auto, unfolding(crate::specs::Cfode::cfode_of))]
fn entry(i: usize) -> f64
    requires { i < 384 }
    ensures { result ≡ get_or cfode_of i nan }
{
    COEFFICIENTS[i]
}

// Entry i of the table. A variable index writes the whole array to the stack, a literal one is a constant: so the
// places of orders 1 and 2, which runs read, are named here.
#[tactic(auto, unfolding(crate::specs::Cfode::cfode_of))]
pub fn coefficient(i: usize) -> f64
    requires { i < 384 }
    ensures { result ≡ get_or cfode_of i nan }
{
    match i {
        0 => COEFFICIENTS[0],
        1 => COEFFICIENTS[1],
        13 => COEFFICIENTS[13],
        14 => COEFFICIENTS[14],
        15 => COEFFICIENTS[15],
        156 => COEFFICIENTS[156],
        157 => COEFFICIENTS[157],
        158 => COEFFICIENTS[158],
        159 => COEFFICIENTS[159],
        160 => COEFFICIENTS[160],
        161 => COEFFICIENTS[161],
        192 => COEFFICIENTS[192],
        193 => COEFFICIENTS[193],
        205 => COEFFICIENTS[205],
        206 => COEFFICIENTS[206],
        207 => COEFFICIENTS[207],
        348 => COEFFICIENTS[348],
        349 => COEFFICIENTS[349],
        350 => COEFFICIENTS[350],
        351 => COEFFICIENTS[351],
        352 => COEFFICIENTS[352],
        353 => COEFFICIENTS[353],
        _ => entry(i),
    }
}

// The number of an order in the table in force, 0 where there is none yet. Order 1's stands at `base`, that of each
// further order `SIZE` numbers on.
fn number<const SIZE: usize>(table: usize, base: usize, order: usize) -> f64
    requires { (table ≤ 2) × (1 ≤ order) × (order ≤ 12) × (SIZE * (order - 1) + base < 192) }
    ensures { result ≡ cond (eqb table 0) zero_f (get_or cfode_of (192 * (table - 1) + SIZE * (order - 1) + base) nan) }
{
    if table == 0 {
        0.0
    } else {
        coefficient(192 * (table - 1) + SIZE * (order - 1) + base)
    }
}

// Coefficient i of the given order in the table in force: all zeros before the first setup.
#[tactic(auto, using(crate::proofs::Table::elco_is))]
pub fn elco(table: usize, order: usize, i: usize) -> f64
    requires { (table ≤ 2) × (1 ≤ order) × (order ≤ 12) × (i ≤ 12) }
    ensures { result ≡ elco_of table order i }
{
    number::<13>(table, i, order)
}

// Error entry i of the given order in the table in force.
#[tactic(auto, using(crate::proofs::Table::tesco_is))]
pub fn tesco(table: usize, order: usize, i: usize) -> f64
    requires { (table ≤ 2) × (1 ≤ order) × (order ≤ 12) × (i ≤ 2) }
    ensures { result ≡ tesco_of table order i }
{
    number::<3>(table, 156 + i, order)
}

// The error constant of a family's method of the given order; 0 before the first setup. A family is a table's number.
fn error_constant(table: usize, family: usize, order: usize) -> f64
    requires { (1 ≤ family) × (family ≤ 2) × (1 ≤ order) × (order ≤ 12) }
    ensures { result ≡ cond (eqb table 0) zero_f (tesco_of family order 1 ⊗ elco_of family order order) }
{
    if table == 0 {
        0.0
    } else {
        tesco(family, order, 1) * elco(family, order, order)
    }
}

// The error constant of the Adams method of the given order.
#[tactic(auto, using(crate::proofs::Table::cm1_is))]
pub fn cm1(table: usize, order: usize) -> f64
    requires { (1 ≤ order) × (order ≤ 12) }
    ensures { result ≡ cm1_of table order }
{
    error_constant(table, 1, order)
}

// The error constant of the BDF method of the given order.
#[tactic(auto, using(crate::proofs::Table::cm2_is))]
pub fn cm2(table: usize, order: usize) -> f64
    requires { (1 ≤ order) × (order ≤ 5) }
    ensures { result ≡ cm2_of table order }
{
    error_constant(table, 2, order)
}

// The stability limit of the Adams method of the given order.
#[tactic(auto, unfolding(crate::specs::Table::sm1_of))]
pub fn sm1(order: usize) -> f64
    requires { (1 ≤ order) × (order ≤ 12) }
    ensures { result ≡ sm1_of order }
{
    SM1[order - 1]
}
