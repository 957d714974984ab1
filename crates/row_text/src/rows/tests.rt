use super::Rows;
use crate::answer::answer_text;
use crate::cell_column::CellColumn;
use query_model::Text;
use std::test::Fail;

#[test]
fn rows_of_vectors_are_printed(rt: HostRuntime) -> Result<(), Fail> {
    let a = rt.alloc();
    let cities = CellColumn::texts(
        Vec::from_slice(a, b"oslobergen")?,
        Vec::from_array(a, [4, 10])?,
    );
    let days = CellColumn::ints(
        Vec::from_array(a, [3, 0])?,
        Vec::from_array(a, [true, false])?,
    );
    let rain = CellColumn::sums(
        Vec::from_array(a, [-7, 9_223_372_036_854_775_808])?,
        Vec::from_array(a, [true, true])?,
    );
    let rows = Rows::from_columns(Vec::from_array(a, [cities, days, rain])?, 2);
    let header = [
        Text::new(a, "city")?,
        Text::new(a, "days")?,
        Text::new(a, "rain")?,
    ];
    let mut out = Vec::new(a);
    assert_eq!(rt; answer_text(a, &header, &rows.as_slice(), &mut out), Ok(()));
    assert_eq!(rt;
        out.as_slice(),
        b"city,days,rain\noslo,3,-7\nbergen,,9223372036854775808\n".as_slice()
    );
    Ok(())
}
